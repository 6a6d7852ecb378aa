//! Filters of several tests, with the sample topics that they list: an independent program worked them out.
use crate::table_rows::Row;

/// A text, and what it makes.
pub static JOINED_FILTERS: [Row; 68] = [
    (
        "not contains(labels,'a')",
        Ok(&[1, 7, 10, 13, 16, 19, 22, 28, 31, 34, 37, 40]),
    ),
    (
        "not priority gt 'a'",
        Ok(&[1, 13, 19, 22, 25, 28, 31, 37, 40]),
    ),
    ("not priority eq null", Ok(&[4, 7, 10, 16, 22, 34])),
    ("stage ne null and stage eq ''", Ok(&[19])),
    ("not index gt 0 and not index eq null", Ok(&[7, 13, 19])),
    (
        "title eq 'one' or title eq 'Pipe' and index eq 7",
        Ok(&[1, 4, 37]),
    ),
    (
        "(title eq 'one' or title eq 'Pipe') and index eq 7",
        Ok(&[4, 37]),
    ),
    ("not title eq 'one' and index eq 7", Ok(&[4, 22])),
    (
        "not (title eq 'one' and index eq 7)",
        Ok(&[1, 4, 7, 10, 13, 16, 19, 22, 25, 28, 31, 34, 40]),
    ),
    ("title eq 'one' and not index eq 7", Ok(&[1])),
    (
        "not title eq 'one' or index eq 7",
        Ok(&[4, 7, 10, 13, 16, 19, 22, 25, 28, 31, 34, 37, 40]),
    ),
    ("not not index eq 7", Ok(&[4, 22, 37])),
    ("(index eq 7)and(title eq 'one')", Ok(&[37])),
    ("title eq'one'or(index eq 7)", Ok(&[1, 4, 22, 37])),
    ("index eq 7 and index ne 7", Ok(&[])),
    (
        "index eq 7 or index ne 7",
        Ok(&[1, 4, 7, 10, 13, 16, 19, 22, 25, 28, 31, 34, 37, 40]),
    ),
    (
        "index eq 7 and title eq 'one' or title eq 'A' and stage eq 'S1' or contains(labels,'MEP')",
        Ok(&[4, 34, 37]),
    ),
    (
        "not(title eq 'one')",
        Ok(&[4, 7, 10, 13, 16, 19, 22, 25, 28, 31, 34, 40]),
    ),
    (
        "creation_author ne 'eva' and modified_author ne 'eva'",
        Ok(&[10, 16, 19, 25, 31, 34, 40]),
    ),
    (
        "(((title eq 'one') and ((index eq null))) or (index eq 42))",
        Ok(&[1, 31]),
    ),
    ("index ge +42 or index eq -1", Ok(&[7, 10, 31])),
    (
        "not index eq 7",
        Ok(&[1, 7, 10, 13, 16, 19, 25, 28, 31, 34, 40]),
    ),
    (
        "not contains(title,'one')",
        Ok(&[4, 7, 10, 13, 16, 22, 25, 28, 31, 34, 40]),
    ),
    ("not not contains(title,'one')", Ok(&[1, 19, 37])),
    (
        "not not not not not not not not not not not not not not not index eq 7",
        Ok(&[1, 7, 10, 13, 16, 19, 25, 28, 31, 34, 40]),
    ),
    (
        "not not not not not not not not not not not not not not not contains(title,'one')",
        Ok(&[4, 7, 10, 13, 16, 22, 25, 28, 31, 34, 40]),
    ),
    (
        "not not not not not not not not not not not not not not not not index eq 7",
        Ok(&[4, 22, 37]),
    ),
    (
        "not not not not not not not not not not not not not not not not contains(title,'one')",
        Ok(&[1, 19, 37]),
    ),
    (
        "not not not not not not not not not not not not not not not not not index eq 7",
        Ok(&[1, 7, 10, 13, 16, 19, 25, 28, 31, 34, 40]),
    ),
    (
        "not not not not not not not not not not not not not not not not not contains(title,'one')",
        Ok(&[4, 7, 10, 13, 16, 22, 25, 28, 31, 34, 40]),
    ),
    (
        "not not not not not not not not not not not not not not not not not not not not not not not not not not not not not not not index eq 7",
        Ok(&[1, 7, 10, 13, 16, 19, 25, 28, 31, 34, 40]),
    ),
    (
        "not not not not not not not not not not not not not not not not not not not not not not not not not not not not not not not contains(title,'one')",
        Ok(&[4, 7, 10, 13, 16, 22, 25, 28, 31, 34, 40]),
    ),
    (
        "not not not not not not not not not not not not not not not not not not not not not not not not not not not not not not not not index eq 7",
        Ok(&[4, 22, 37]),
    ),
    (
        "not not not not not not not not not not not not not not not not not not not not not not not not not not not not not not not not contains(title,'one')",
        Ok(&[1, 19, 37]),
    ),
    (
        "not (index eq 7)",
        Ok(&[1, 7, 10, 13, 16, 19, 25, 28, 31, 34, 40]),
    ),
    (
        "not (contains(title,'one'))",
        Ok(&[4, 7, 10, 13, 16, 22, 25, 28, 31, 34, 40]),
    ),
    ("not (not (index eq 7))", Ok(&[4, 22, 37])),
    ("not (not (contains(title,'one')))", Ok(&[1, 19, 37])),
    (
        "not (not (not (not (not (not (not (not (not (not (not (not (not (not (not (index eq 7)))))))))))))))",
        Ok(&[1, 7, 10, 13, 16, 19, 25, 28, 31, 34, 40]),
    ),
    (
        "not (not (not (not (not (not (not (not (not (not (not (not (not (not (not (contains(title,'one'))))))))))))))))",
        Ok(&[4, 7, 10, 13, 16, 22, 25, 28, 31, 34, 40]),
    ),
    (
        "not (not (not (not (not (not (not (not (not (not (not (not (not (not (not (not (index eq 7))))))))))))))))",
        Ok(&[4, 22, 37]),
    ),
    (
        "not (not (not (not (not (not (not (not (not (not (not (not (not (not (not (not (contains(title,'one')))))))))))))))))",
        Ok(&[1, 19, 37]),
    ),
    (
        "(((((((((((((((((((((((((((((((not title eq 'one')))))))))))))))))))))))))))))))",
        Ok(&[4, 7, 10, 13, 16, 19, 22, 25, 28, 31, 34, 40]),
    ),
    (
        "not not not title ne null and not not title eq 'one'",
        Ok(&[]),
    ),
    (
        "assigned_to ge 'x y' or (not contains(stage,'x y') and contains(modified_author,'it''s'))",
        Ok(&[]),
    ),
    (
        "not modified_date eq null and creation_author eq null",
        Ok(&[]),
    ),
    (
        "(contains(topic_status,'Clash') and not contains(labels,'') and contains(topic_type,'') and index lt 7)",
        Ok(&[]),
    ),
    (
        "index gt 2147483647 and topic_type ne 'it''s' or index ge +7",
        Ok(&[4, 10, 22, 31, 37]),
    ),
    (
        "(not index lt 7 or stage le 'é' or contains(title,'a'))",
        Ok(&[1, 4, 10, 16, 19, 22, 25, 28, 31, 34, 37, 40]),
    ),
    ("index lt 7 and topic_type lt 'x y'", Ok(&[7])),
    (
        "not not contains(modified_author,'') or contains(modified_author,'a') or not contains(stage,'')",
        Ok(&[1, 4, 7, 13, 16, 22, 25, 28, 31, 34, 37, 40]),
    ),
    ("not title gt 'eva'", Ok(&[4, 10, 13, 22, 25, 34, 40])),
    (
        "not not not (not (((not not not ((not not not not not ((not not ((not not not (not not not not index eq 1)))))))))))",
        Ok(&[1, 4, 7, 10, 13, 16, 19, 22, 25, 28, 31, 34, 37, 40]),
    ),
    (
        "(stage ne null and not contains(topic_type,'é') or contains(topic_type,'') or contains(labels,'x y'))",
        Ok(&[4, 7, 10, 19, 25, 31, 34, 40]),
    ),
    (
        "not index lt 0",
        Ok(&[1, 4, 10, 16, 19, 22, 25, 28, 31, 34, 37, 40]),
    ),
    (
        "not contains(priority,'it''s') and priority ge 'a'",
        Ok(&[4, 7, 10, 16, 34]),
    ),
    (
        "not contains(modified_author,'')",
        Ok(&[1, 7, 10, 19, 22, 25, 31, 40]),
    ),
    (
        "description le 'eva' or not priority ne null",
        Ok(&[1, 10, 13, 16, 19, 25, 28, 31, 37, 40]),
    ),
    (
        "stage eq null and topic_type eq null or ((stage eq null or topic_type lt 'Clash'))",
        Ok(&[1, 7, 13, 16, 22, 25, 28, 31, 37, 40]),
    ),
    (
        "not not not contains(modified_author,'a') and (contains(topic_status,'a'))",
        Ok(&[]),
    ),
    (
        "(not stage lt 'é')",
        Ok(&[1, 7, 13, 16, 22, 25, 28, 31, 37, 40]),
    ),
    ("not index le 2147483647", Ok(&[1, 16, 25, 28, 34, 40])),
    (
        "not not (index le +7 and contains(topic_type,'a'))",
        Ok(&[4, 7]),
    ),
    (
        "(not not (not not (not not not not (not ((not not not (not (not not not (not (((not ((contains(title,'a')))))))))))))))",
        Ok(&[25, 40]),
    ),
    (
        "not title le 'é' or not contains(creation_author,'a') and index gt 007",
        Ok(&[10, 28, 31]),
    ),
    (
        "not (modified_date ge 1970-01-01T00:00:00Z)",
        Ok(&[1, 7, 10, 19, 22, 25, 31, 40]),
    ),
    (
        "due_date ne null or contains(assigned_to,'a')",
        Ok(&[4, 7, 10, 22, 25, 34]),
    ),
    (
        "not topic_type ne null",
        Ok(&[1, 13, 16, 19, 22, 28, 34, 37]),
    ),
];
