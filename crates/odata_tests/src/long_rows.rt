//! Long filters and orders, with what an independent program made of each.
use crate::table_rows::LongRow;

/// A text by its beginning, what is repeated, how often, and its end, and what it lists or where it is refused.
pub static LONG_FILTERS: [LongRow; 21] = [
    ("title eq '", "x", 4084, "'", Ok(&[])),
    ("title eq '", "é", 2042, "'", Ok(&[])),
    ("@", "x", 4094, "", Err(0)),
    ("title  eq", " ", 4081, "'one'", Ok(&[1, 37])),
    ("title eq '", "x", 4085, "'", Ok(&[])),
    ("title eq '", "é", 2042, "x'", Ok(&[])),
    ("@", "x", 4095, "", Err(0)),
    ("title  eq", " ", 4082, "'one'", Ok(&[1, 37])),
    ("title eq '", "x", 4086, "'", Err(4096)),
    ("title eq '", "é", 2043, "'", Err(4096)),
    ("@", "x", 4096, "", Err(4096)),
    ("title  eq", " ", 4083, "'one'", Err(4096)),
    ("title eq '", "x", 4989, "'", Err(4096)),
    ("title eq '", "é", 2494, "x'", Err(4096)),
    ("title ne 'x", "' or title eq 'one", 300, "'@", Err(4096)),
    ("title  eq", " ", 4986, "'one'", Err(4096)),
    (
        "title ne 'x",
        "' or title eq 'one",
        226,
        "' or index eq 42",
        Ok(&[1, 4, 7, 10, 13, 16, 19, 22, 25, 28, 31, 34, 37, 40]),
    ),
    ("index eq ", "0", 4086, "7", Ok(&[4, 22, 37])),
    ("index eq -", "0", 4085, "1", Ok(&[7])),
    ("index eq ", "9", 4087, "", Err(9)),
    ("index eq ", "9", 4088, "", Err(4096)),
];

/// A text by its beginning, what is repeated, how often, and its end, and what it lists or where it is refused.
pub static LONG_ORDERS: [LongRow; 6] = [
    ("", "x", 4096, "", Err(0)),
    ("", "x", 4097, "", Err(4096)),
    ("title", " ", 4090, ",", Err(4096)),
    ("title", " ", 4091, ",", Err(4096)),
    (
        "title",
        " ",
        4087,
        "desc",
        Ok(&[28, 31, 16, 19, 1, 37, 7, 40, 25, 22, 4, 10, 34, 13]),
    ),
    ("title", " ", 4088, "desc", Err(4096)),
];
