ghost use Rattle.std.specs.Prelude.{◌≡◌, ◌-◌, ◌≤◌, length, min, take, drop};

/// Calls, numbered from 1, of which those whose number stands in `failing` fail. Both counts stand still at their type's end.
#[derive(Debug, Drop)]
pub struct Calls {
    pub failing: Vec<u64>,
    pub made: u64,
    pub faults: u64,
}

impl Calls {
    ghost use Rattle.ev_outside.specs.inner.Calls.{after_call, next_fails};

    /// No calls yet.
    pub fn new(failing: Vec<u64>) -> Calls
        ensures { result ≡ record { failing = failing; made = 0; faults = 0 } }
    {
        Calls {
            failing,
            made: 0,
            faults: 0,
        }
    }

    /// Numbers the next call, and answers whether it fails, which counts as a fault.
    pub fn next(&mut self) -> bool
        ensures fails { result ≡ next_fails self.old }
        ensures calls { self.new ≡ after_call self.old }
        ensures count { self.old.faults ≤ self.new.faults }
    {
        self.made = self.made.saturating_add(1);
        let fails = self.failing.contains(&self.made);
        if fails {
            self.faults = self.faults.saturating_add(1);
        }
        fails
    }
}

/// Copies a front of the bytes from `at` on to the front of the buffer: at most so many, and as many as both have. Answers its length.
pub fn copy_piece(bytes: &[u8], at: usize, most: usize, buf: &mut [u8]) -> usize
    requires { at ≤ length bytes.now }
    ensures count { result ≡ min most (min (length bytes.now - at) (length buf.old)) }
    ensures copied { take result buf.new ≡ take result (drop at bytes.now) }
{
    let n = most.min(bytes.len() - at).min(buf.len());
    buf[..n].copy_from_slice(&bytes[at..at + n]);
    n
}
