//! The 64 base symbols, each by its row in the table of base symbols, from 0, with the sign that is written for it. Source: Métayer
//! and Voisin, The Event-B Mathematical Language.

/// `true`
pub const TRUE: u16 = 0;

/// `false`
pub const FALSE: u16 = 1;

/// `not`
pub const NOT: u16 = 2;

/// `&`
pub const AND: u16 = 3;

/// `or`
pub const OR: u16 = 4;

/// `=>`
pub const IMPLIES: u16 = 5;

/// `<=>`
pub const IFF: u16 = 6;

/// `!`
pub const FOR_ALL: u16 = 7;

/// `#`
pub const FOR_SOME: u16 = 8;

/// `=`
pub const EQUAL: u16 = 9;

/// `:`
pub const IN: u16 = 10;

/// `<:`
pub const SUBSET: u16 = 11;

/// `<`
pub const LESS: u16 = 12;

/// `<=`
pub const AT_MOST: u16 = 13;

/// `finite`
pub const FINITE: u16 = 14;

/// `TRUE`
pub const TRUE_VALUE: u16 = 15;

/// `FALSE`
pub const FALSE_VALUE: u16 = 16;

/// `bool`
pub const BOOL: u16 = 17;

/// `-` before one number: `-x`
pub const NEGATIVE: u16 = 18;

/// `+`
pub const PLUS: u16 = 19;

/// `-` between two numbers: `x - y`
pub const MINUS: u16 = 20;

/// `*`
pub const TIMES: u16 = 21;

/// `/`
pub const OVER: u16 = 22;

/// `mod`
pub const MOD: u16 = 23;

/// `^`
pub const POWER: u16 = 24;

/// `TYPE`
pub const TYPE: u16 = 25;

/// `NAT`
pub const NAT: u16 = 26;

/// `NAT1`
pub const NAT1: u16 = 27;

/// `{}`
pub const EMPTY: u16 = 28;

/// `{x | P}`
pub const SET: u16 = 29;

/// `|->`
pub const MAPS_TO: u16 = 30;

/// `**`
pub const PRODUCT: u16 = 31;

/// `POW`
pub const POW: u16 = 32;

/// `\/`
pub const CUP: u16 = 33;

/// `/\`
pub const CAP: u16 = 34;

/// `\`
pub const WITHOUT: u16 = 35;

/// `union`
pub const BIG_UNION: u16 = 36;

/// `inter`
pub const BIG_INTER: u16 = 37;

/// `<->`
pub const RELATION: u16 = 38;

/// `+->`
pub const PARTIAL_FUNCTION: u16 = 39;

/// `-->`
pub const TOTAL_FUNCTION: u16 = 40;

/// `>+>`
pub const PARTIAL_INJECTION: u16 = 41;

/// `>->`
pub const TOTAL_INJECTION: u16 = 42;

/// `+->>`
pub const PARTIAL_SURJECTION: u16 = 43;

/// `-->>`
pub const TOTAL_SURJECTION: u16 = 44;

/// `>->>`
pub const BIJECTION: u16 = 45;

/// `dom`
pub const DOM: u16 = 46;

/// `ran`
pub const RAN: u16 = 47;

/// `~`
pub const INVERSE: u16 = 48;

/// `;`
pub const COMPOSITION: u16 = 49;

/// `<|`
pub const DOMAIN_RESTRICTION: u16 = 50;

/// `<<|`
pub const DOMAIN_SUBTRACTION: u16 = 51;

/// `|>`
pub const RANGE_RESTRICTION: u16 = 52;

/// `|>>`
pub const RANGE_SUBTRACTION: u16 = 53;

/// `<+`
pub const OVERRIDE: u16 = 54;

/// `r[S]`
pub const IMAGE: u16 = 55;

/// `f(E)`
pub const APPLY: u16 = 56;

/// `id`
pub const ID: u16 = 57;

/// `prj1`
pub const PRJ1: u16 = 58;

/// `prj2`
pub const PRJ2: u16 = 59;

/// `..`
pub const UP_TO: u16 = 60;

/// `card`
pub const CARD: u16 = 61;

/// `min`
pub const MIN: u16 = 62;

/// `max`
pub const MAX: u16 = 63;
