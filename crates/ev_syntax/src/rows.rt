//! The table of the signs and the reserved words.

/// A spelling: the first `length` of the bytes, which blanks fill up.
#[derive(Clone, Copy)]
pub struct Spelling {
    pub length: u8,
    pub bytes: [u8; 9],
}

/// How many spellings there are.
pub const COUNT: usize = 103;

/// The signs, and then the reserved words. A mark is the number of its row, from 0.
pub static ROWS: [Spelling; COUNT] = [
    Spelling {
        length: 1,
        bytes: *b"!        ",
    },
    Spelling {
        length: 1,
        bytes: *b"#        ",
    },
    Spelling {
        length: 1,
        bytes: *b"&        ",
    },
    Spelling {
        length: 2,
        bytes: *b"=>       ",
    },
    Spelling {
        length: 3,
        bytes: *b"<=>      ",
    },
    Spelling {
        length: 1,
        bytes: *b"=        ",
    },
    Spelling {
        length: 2,
        bytes: *b"/=       ",
    },
    Spelling {
        length: 1,
        bytes: *b":        ",
    },
    Spelling {
        length: 2,
        bytes: *b"/:       ",
    },
    Spelling {
        length: 2,
        bytes: *b"<:       ",
    },
    Spelling {
        length: 3,
        bytes: *b"/<:      ",
    },
    Spelling {
        length: 1,
        bytes: *b"<        ",
    },
    Spelling {
        length: 2,
        bytes: *b"<=       ",
    },
    Spelling {
        length: 1,
        bytes: *b">        ",
    },
    Spelling {
        length: 2,
        bytes: *b">=       ",
    },
    Spelling {
        length: 3,
        bytes: *b"|->      ",
    },
    Spelling {
        length: 3,
        bytes: *b"<->      ",
    },
    Spelling {
        length: 3,
        bytes: *b"+->      ",
    },
    Spelling {
        length: 3,
        bytes: *b"-->      ",
    },
    Spelling {
        length: 3,
        bytes: *b">+>      ",
    },
    Spelling {
        length: 3,
        bytes: *b">->      ",
    },
    Spelling {
        length: 4,
        bytes: *b"+->>     ",
    },
    Spelling {
        length: 4,
        bytes: *b"-->>     ",
    },
    Spelling {
        length: 4,
        bytes: *b">->>     ",
    },
    Spelling {
        length: 2,
        bytes: *b"\\/       ",
    },
    Spelling {
        length: 2,
        bytes: *b"/\\       ",
    },
    Spelling {
        length: 1,
        bytes: *b"\\        ",
    },
    Spelling {
        length: 2,
        bytes: *b"**       ",
    },
    Spelling {
        length: 2,
        bytes: *b"<+       ",
    },
    Spelling {
        length: 2,
        bytes: *b"<|       ",
    },
    Spelling {
        length: 3,
        bytes: *b"<<|      ",
    },
    Spelling {
        length: 2,
        bytes: *b"|>       ",
    },
    Spelling {
        length: 3,
        bytes: *b"|>>      ",
    },
    Spelling {
        length: 1,
        bytes: *b";        ",
    },
    Spelling {
        length: 2,
        bytes: *b"..       ",
    },
    Spelling {
        length: 1,
        bytes: *b"+        ",
    },
    Spelling {
        length: 1,
        bytes: *b"-        ",
    },
    Spelling {
        length: 1,
        bytes: *b"*        ",
    },
    Spelling {
        length: 1,
        bytes: *b"/        ",
    },
    Spelling {
        length: 1,
        bytes: *b"^        ",
    },
    Spelling {
        length: 1,
        bytes: *b"~        ",
    },
    Spelling {
        length: 1,
        bytes: *b"(        ",
    },
    Spelling {
        length: 1,
        bytes: *b")        ",
    },
    Spelling {
        length: 1,
        bytes: *b"[        ",
    },
    Spelling {
        length: 1,
        bytes: *b"]        ",
    },
    Spelling {
        length: 1,
        bytes: *b"{        ",
    },
    Spelling {
        length: 1,
        bytes: *b"}        ",
    },
    Spelling {
        length: 1,
        bytes: *b",        ",
    },
    Spelling {
        length: 1,
        bytes: *b".        ",
    },
    Spelling {
        length: 1,
        bytes: *b"|        ",
    },
    Spelling {
        length: 1,
        bytes: *b"%        ",
    },
    Spelling {
        length: 1,
        bytes: *b"?        ",
    },
    Spelling {
        length: 1,
        bytes: *b"@        ",
    },
    Spelling {
        length: 4,
        bytes: *b"true     ",
    },
    Spelling {
        length: 5,
        bytes: *b"false    ",
    },
    Spelling {
        length: 3,
        bytes: *b"not      ",
    },
    Spelling {
        length: 2,
        bytes: *b"or       ",
    },
    Spelling {
        length: 4,
        bytes: *b"TRUE     ",
    },
    Spelling {
        length: 5,
        bytes: *b"FALSE    ",
    },
    Spelling {
        length: 3,
        bytes: *b"INT      ",
    },
    Spelling {
        length: 3,
        bytes: *b"NAT      ",
    },
    Spelling {
        length: 4,
        bytes: *b"NAT1     ",
    },
    Spelling {
        length: 4,
        bytes: *b"BOOL     ",
    },
    Spelling {
        length: 3,
        bytes: *b"POW      ",
    },
    Spelling {
        length: 4,
        bytes: *b"TYPE     ",
    },
    Spelling {
        length: 4,
        bytes: *b"PRED     ",
    },
    Spelling {
        length: 4,
        bytes: *b"bool     ",
    },
    Spelling {
        length: 6,
        bytes: *b"oftype   ",
    },
    Spelling {
        length: 3,
        bytes: *b"mod      ",
    },
    Spelling {
        length: 6,
        bytes: *b"finite   ",
    },
    Spelling {
        length: 4,
        bytes: *b"card     ",
    },
    Spelling {
        length: 3,
        bytes: *b"min      ",
    },
    Spelling {
        length: 3,
        bytes: *b"max      ",
    },
    Spelling {
        length: 5,
        bytes: *b"union    ",
    },
    Spelling {
        length: 5,
        bytes: *b"inter    ",
    },
    Spelling {
        length: 3,
        bytes: *b"dom      ",
    },
    Spelling {
        length: 3,
        bytes: *b"ran      ",
    },
    Spelling {
        length: 2,
        bytes: *b"id       ",
    },
    Spelling {
        length: 4,
        bytes: *b"prj1     ",
    },
    Spelling {
        length: 4,
        bytes: *b"prj2     ",
    },
    Spelling {
        length: 5,
        bytes: *b"UNION    ",
    },
    Spelling {
        length: 5,
        bytes: *b"INTER    ",
    },
    Spelling {
        length: 2,
        bytes: *b"at       ",
    },
    Spelling {
        length: 2,
        bytes: *b"of       ",
    },
    Spelling {
        length: 6,
        bytes: *b"IMPORT   ",
    },
    Spelling {
        length: 5,
        bytes: *b"PARAM    ",
    },
    Spelling {
        length: 8,
        bytes: *b"DATATYPE ",
    },
    Spelling {
        length: 8,
        bytes: *b"OPERATOR ",
    },
    Spelling {
        length: 8,
        bytes: *b"CONSTANT ",
    },
    Spelling {
        length: 5,
        bytes: *b"AXIOM    ",
    },
    Spelling {
        length: 7,
        bytes: *b"THEOREM  ",
    },
    Spelling {
        length: 7,
        bytes: *b"REWRITE  ",
    },
    Spelling {
        length: 9,
        bytes: *b"INFERENCE",
    },
    Spelling {
        length: 5,
        bytes: *b"WHERE    ",
    },
    Spelling {
        length: 2,
        bytes: *b"IS       ",
    },
    Spelling {
        length: 2,
        bytes: *b"BY       ",
    },
    Spelling {
        length: 4,
        bytes: *b"CASE     ",
    },
    Spelling {
        length: 3,
        bytes: *b"FOR      ",
    },
    Spelling {
        length: 4,
        bytes: *b"WHEN     ",
    },
    Spelling {
        length: 4,
        bytes: *b"THEN     ",
    },
    Spelling {
        length: 8,
        bytes: *b"COMPLETE ",
    },
    Spelling {
        length: 5,
        bytes: *b"GIVEN    ",
    },
    Spelling {
        length: 5,
        bytes: *b"INFER    ",
    },
];
