//! The kinds of records, in the names of wild's syntax tree. docs/RECORDS.md has what their further words are.
//! Words that say one of two things (hidden, in KEEP, sorted, with a start expression) and an attribute's number are numbers in code and rules
//! alike, as they stand on the tape.

pub const NUMBER: u64 = 1;

pub const SYMBOL: u64 = 2;

pub const LOCATION_COUNTER: u64 = 3;

pub const ADD: u64 = 4;

pub const SUBTRACT: u64 = 5;

pub const MULTIPLY: u64 = 6;

pub const DIVIDE: u64 = 7;

pub const MODULO: u64 = 8;

pub const LESS_THAN: u64 = 9;

pub const GREATER_THAN: u64 = 10;

pub const LESS_EQUAL: u64 = 11;

pub const GREATER_EQUAL: u64 = 12;

pub const EQUAL: u64 = 13;

pub const NOT_EQUAL: u64 = 14;

pub const MIN: u64 = 15;

pub const MAX: u64 = 16;

pub const BITWISE_AND: u64 = 17;

pub const BITWISE_OR: u64 = 18;

pub const BITWISE_XOR: u64 = 19;

pub const LEFT_SHIFT: u64 = 20;

pub const RIGHT_SHIFT: u64 = 21;

pub const LOGICAL_AND: u64 = 22;

pub const LOGICAL_OR: u64 = 23;

pub const LOGICAL_NOT: u64 = 24;

pub const BITWISE_NOT: u64 = 25;

pub const NEGATE: u64 = 26;

pub const ABSOLUTE: u64 = 27;

pub const TERNARY: u64 = 28;

pub const ALIGN: u64 = 29;

pub const SIZEOF: u64 = 30;

pub const ALIGNOF: u64 = 31;

pub const ORIGIN: u64 = 32;

pub const LENGTH: u64 = 33;

pub const ADDR: u64 = 34;

pub const LOADADDR: u64 = 35;

pub const DEFINED: u64 = 36;

pub const SEGMENT_START: u64 = 37;

pub const SIZEOF_HEADERS: u64 = 38;

pub const ASSERT: u64 = 39;

pub const ARG: u64 = 40;

pub const GROUP: u64 = 41;

pub const AS_NEEDED: u64 = 42;

pub const IGNORED: u64 = 43;

pub const SECTIONS: u64 = 44;

pub const ENTRY: u64 = 45;

pub const VERSION: u64 = 46;

pub const SYMBOL_DEFINITION: u64 = 47;

pub const SET_LOCATION: u64 = 48;

pub const PROVIDE: u64 = 49;

pub const ASSERT_COMMAND: u64 = 50;

pub const MEMORY: u64 = 51;

pub const MEMORY_REGION: u64 = 52;

pub const PHDRS: u64 = 53;

pub const PHDR: u64 = 54;

pub const OUTPUT_FORMAT: u64 = 55;

pub const FORMAT: u64 = 56;

pub const ALIGN_CLAUSE: u64 = 57;

pub const AT_CLAUSE: u64 = 58;

pub const PHDR_CLAUSE: u64 = 59;

pub const REGION_CLAUSE: u64 = 60;

pub const FILL: u64 = 61;

pub const SECTION_HEAD: u64 = 62;

pub const SECTION: u64 = 63;

pub const PATTERN: u64 = 64;

pub const MATCHER: u64 = 65;

pub const CONSTRUCTORS: u64 = 66;

pub const FLAGS: u64 = 67;
