// The limits of 01, "The record". They stand here once, and once in specs/Limits.antt.
pub const MOST_FORMULAS: usize = 4096;

pub const MOST_STATEMENTS: usize = 256;

pub const MOST_STEPS: usize = 16384;

pub const MOST_DEPTH: usize = 512;

pub const MOST_ATOMS: usize = 4096;

pub const MOST_PRINCIPALS: usize = 4096;
