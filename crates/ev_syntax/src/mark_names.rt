//! The marks by name: rows of the table of spellings, from 0.

/// `!`
pub const FOR_ALL_SIGN: u16 = 0;

/// `#`
pub const FOR_SOME_SIGN: u16 = 1;

/// `&`
pub const AND_SIGN: u16 = 2;

/// `=>`
pub const IMPLIES_SIGN: u16 = 3;

/// `<=>`
pub const IFF_SIGN: u16 = 4;

/// `=`
pub const EQUAL_SIGN: u16 = 5;

/// `/=`
pub const NOT_EQUAL_SIGN: u16 = 6;

/// `:`
pub const IN_SIGN: u16 = 7;

/// `/:`
pub const NOT_IN_SIGN: u16 = 8;

/// `<:`
pub const SUBSET_SIGN: u16 = 9;

/// `/<:`
pub const NOT_SUBSET_SIGN: u16 = 10;

/// `<`
pub const LESS_SIGN: u16 = 11;

/// `<=`
pub const AT_MOST_SIGN: u16 = 12;

/// `>`
pub const GREATER_SIGN: u16 = 13;

/// `>=`
pub const AT_LEAST_SIGN: u16 = 14;

/// `|->`
pub const MAPS_TO_SIGN: u16 = 15;

/// `<->`
pub const RELATION_SIGN: u16 = 16;

/// `+->`
pub const PARTIAL_FUNCTION_SIGN: u16 = 17;

/// `-->`
pub const TOTAL_FUNCTION_SIGN: u16 = 18;

/// `>+>`
pub const PARTIAL_INJECTION_SIGN: u16 = 19;

/// `>->`
pub const TOTAL_INJECTION_SIGN: u16 = 20;

/// `+->>`
pub const PARTIAL_SURJECTION_SIGN: u16 = 21;

/// `-->>`
pub const TOTAL_SURJECTION_SIGN: u16 = 22;

/// `>->>`
pub const BIJECTION_SIGN: u16 = 23;

/// `\/`
pub const CUP_SIGN: u16 = 24;

/// `/\`
pub const CAP_SIGN: u16 = 25;

/// `\`
pub const WITHOUT_SIGN: u16 = 26;

/// `**`
pub const PRODUCT_SIGN: u16 = 27;

/// `<+`
pub const OVERRIDE_SIGN: u16 = 28;

/// `<|`
pub const DOMAIN_RESTRICTION_SIGN: u16 = 29;

/// `<<|`
pub const DOMAIN_SUBTRACTION_SIGN: u16 = 30;

/// `|>`
pub const RANGE_RESTRICTION_SIGN: u16 = 31;

/// `|>>`
pub const RANGE_SUBTRACTION_SIGN: u16 = 32;

/// `;`
pub const COMPOSITION_SIGN: u16 = 33;

/// `..`
pub const UP_TO_SIGN: u16 = 34;

/// `+`
pub const PLUS_SIGN: u16 = 35;

/// `-`
pub const MINUS_SIGN: u16 = 36;

/// `*`
pub const TIMES_SIGN: u16 = 37;

/// `/`
pub const OVER_SIGN: u16 = 38;

/// `^`
pub const POWER_SIGN: u16 = 39;

/// `~`
pub const INVERSE_SIGN: u16 = 40;

/// `(`
pub const OPEN_PAREN: u16 = 41;

/// `)`
pub const CLOSE_PAREN: u16 = 42;

/// `[`
pub const OPEN_BRACKET: u16 = 43;

/// `]`
pub const CLOSE_BRACKET: u16 = 44;

/// `{`
pub const OPEN_BRACE: u16 = 45;

/// `}`
pub const CLOSE_BRACE: u16 = 46;

/// `,`
pub const COMMA: u16 = 47;

/// `.`
pub const DOT: u16 = 48;

/// `|`
pub const BAR: u16 = 49;

/// `%`
pub const LAMBDA_SIGN: u16 = 50;

/// `?`
pub const PARAM_SIGN: u16 = 51;

/// `@`
pub const AT_SIGN: u16 = 52;

/// `true`
pub const TRUE_WORD: u16 = 53;

/// `false`
pub const FALSE_WORD: u16 = 54;

/// `not`
pub const NOT_WORD: u16 = 55;

/// `or`
pub const OR_WORD: u16 = 56;

/// `TRUE`
pub const TRUE_VALUE_WORD: u16 = 57;

/// `FALSE`
pub const FALSE_VALUE_WORD: u16 = 58;

/// `INT`
pub const INT_WORD: u16 = 59;

/// `NAT`
pub const NAT_WORD: u16 = 60;

/// `NAT1`
pub const NAT1_WORD: u16 = 61;

/// `BOOL`
pub const BOOL_SET_WORD: u16 = 62;

/// `POW`
pub const POW_WORD: u16 = 63;

/// `TYPE`
pub const TYPE_WORD: u16 = 64;

/// `PRED`
pub const PRED_WORD: u16 = 65;

/// `bool`
pub const BOOL_WORD: u16 = 66;

/// `oftype`
pub const OFTYPE_WORD: u16 = 67;

/// `mod`
pub const MOD_WORD: u16 = 68;

/// `finite`
pub const FINITE_WORD: u16 = 69;

/// `card`
pub const CARD_WORD: u16 = 70;

/// `min`
pub const MIN_WORD: u16 = 71;

/// `max`
pub const MAX_WORD: u16 = 72;

/// `union`
pub const UNION_WORD: u16 = 73;

/// `inter`
pub const INTER_WORD: u16 = 74;

/// `dom`
pub const DOM_WORD: u16 = 75;

/// `ran`
pub const RAN_WORD: u16 = 76;

/// `id`
pub const ID_WORD: u16 = 77;

/// `prj1`
pub const PRJ1_WORD: u16 = 78;

/// `prj2`
pub const PRJ2_WORD: u16 = 79;

/// `UNION`
pub const UNION_OVER_WORD: u16 = 80;

/// `INTER`
pub const INTER_OVER_WORD: u16 = 81;

/// `at`
pub const AT_WORD: u16 = 82;

/// `of`
pub const OF_WORD: u16 = 83;

/// `IMPORT`
pub const IMPORT_WORD: u16 = 84;

/// `PARAM`
pub const PARAM_WORD: u16 = 85;

/// `DATATYPE`
pub const DATATYPE_WORD: u16 = 86;

/// `OPERATOR`
pub const OPERATOR_WORD: u16 = 87;

/// `CONSTANT`
pub const CONSTANT_WORD: u16 = 88;

/// `AXIOM`
pub const AXIOM_WORD: u16 = 89;

/// `THEOREM`
pub const THEOREM_WORD: u16 = 90;

/// `REWRITE`
pub const REWRITE_WORD: u16 = 91;

/// `INFERENCE`
pub const INFERENCE_WORD: u16 = 92;

/// `WHERE`
pub const WHERE_WORD: u16 = 93;

/// `IS`
pub const IS_WORD: u16 = 94;

/// `BY`
pub const BY_WORD: u16 = 95;

/// `CASE`
pub const CASE_WORD: u16 = 96;

/// `FOR`
pub const FOR_WORD: u16 = 97;

/// `WHEN`
pub const WHEN_WORD: u16 = 98;

/// `THEN`
pub const THEN_WORD: u16 = 99;

/// `COMPLETE`
pub const COMPLETE_WORD: u16 = 100;

/// `GIVEN`
pub const GIVEN_WORD: u16 = 101;

/// `INFER`
pub const INFER_WORD: u16 = 102;
