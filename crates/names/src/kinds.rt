// The kinds of tokens, 0 to 29 in the order of the Rust's `TokenKind`. Numbers, not an enum: a list that a caller lends may
// hold any number, and with an enum a public function would ask more.
pub const IDENTIFIER: u16 = 0;

pub const LOCAL_IDENTIFIER: u16 = 1;

pub const NUMBER: u16 = 2;

pub const STRING_LITERAL: u16 = 3;

pub const SIZE_SUFFIX: u16 = 4;

pub const HASH: u16 = 5;

pub const COMMA: u16 = 6;

pub const LEFT_PAREN: u16 = 7;

pub const RIGHT_PAREN: u16 = 8;

pub const LEFT_BRACKET: u16 = 9;

pub const RIGHT_BRACKET: u16 = 10;

pub const LEFT_BRACE: u16 = 11;

pub const RIGHT_BRACE: u16 = 12;

pub const COLON: u16 = 13;

pub const PLUS: u16 = 14;

pub const MINUS: u16 = 15;

pub const STAR: u16 = 16;

pub const SLASH: u16 = 17;

pub const BACKSLASH: u16 = 18;

pub const AMPERSAND: u16 = 19;

pub const BANG: u16 = 20;

pub const PIPE: u16 = 21;

pub const CARET: u16 = 22;

pub const TILDE: u16 = 23;

pub const SHIFT_LEFT: u16 = 24;

pub const SHIFT_RIGHT: u16 = 25;

pub const WHITESPACE: u16 = 26;

pub const COMMENT: u16 = 27;

pub const END_OF_LINE: u16 = 28;

pub const ERROR: u16 = 29;
