//! Filters of several tests that are refused, with the place of each: an independent program worked them out.
use crate::table_rows::Row;

/// A text, and what it makes.
pub static REFUSED_JOINED: [Row; 40] = [
    ("title eq 'one' and", Err(18)),
    ("title eq 'one' or", Err(17)),
    ("title eq 'one' and or", Err(19)),
    ("not", Err(3)),
    ("not not", Err(7)),
    ("and", Err(0)),
    ("or title eq 'one'", Err(0)),
    ("title eq 'a''b' and 'c''", Err(20)),
    ("title eq 'one' and 'a''b", Err(19)),
    (
        "not not not not not not not not not not not not not not not not not not not not not not not not not not not not not not not not not index eq 7",
        Err(128),
    ),
    (
        "not not not not not not not not not not not not not not not not not not not not not not not not not not not not not not not not not contains(title,'one')",
        Err(128),
    ),
    (
        "not not not not not not not not not not not not not not not not not not not not not not not not not not not not not not not not not not not not not not not not index eq 7",
        Err(128),
    ),
    (
        "not not not not not not not not not not not not not not not not not not not not not not not not not not not not not not not not not not not not not not not not contains(title,'one')",
        Err(128),
    ),
    (
        "not (not (not (not (not (not (not (not (not (not (not (not (not (not (not (not (not (index eq 7)))))))))))))))))",
        Err(80),
    ),
    (
        "not (not (not (not (not (not (not (not (not (not (not (not (not (not (not (not (not (contains(title,'one'))))))))))))))))))",
        Err(80),
    ),
    (
        "not not not not not not not not not not not not not not not not not not not not not not not not not not not not not not not not",
        Err(127),
    ),
    (
        "not not not not not not not not not not not not not not not not not not not not not not not not not not not not not not not not (title eq 'one')",
        Err(128),
    ),
    (
        "((((((((((((((((((((((((((((((((not title eq 'one'))))))))))))))))))))))))))))))))",
        Err(32),
    ),
    (
        "not modified_author lt 'a' and) index ge -0 and contains(priority,'eva') and topic_type le 'it''s' or (contains(modified_author,'a')) or contains(priority,'Clash') or contains(assigned_to,'eva') or not stage eq null and contains(description,'it''s')",
        Err(30),
    ),
    (
        "((stage le 'it''s') or (contains(priority,'it''s')) and not due_date le 1969-12-31T00:00:00Z)",
        Err(72),
    ),
    ("not index index le 7", Err(10)),
    ("assigne,to le 'a' or stage le 'a'", Err(0)),
    (
        "index ne -0 and index gt 2147483648 or index ge 1e2",
        Err(25),
    ),
    (
        "stage le null or description gt 'it''s' or index ge 2147483648",
        Err(9),
    ),
    (
        "(index ge 00002147483648) and not contains(topic_type,'') or creation_date ge 2030-01-01T00:00:00.5-02:00 and not not priority gt 'é'",
        Err(10),
    ),
    (
        "modified_da(te eq null and not creation_author eq null",
        Err(0),
    ),
    (
        "not index le 1e2 and index gt 0 or (modified_date gt 2024-05-01T12:00:01Z)",
        Err(13),
    ),
    (
        "  creation_date eq 2024-05-01T14:00:01+02:00 or stage ne null'",
        Err(61),
    ),
    (
        "not (index le -1 or cr)ation_date ne 2024-05-01T11:59:59Z)",
        Err(20),
    ),
    (
        "not contains(modified_author,'eva') or contains(priority,'x y') or modified_author lt null or contains(description,'Clash') or description eq 'a' or contains(assigned_to,'Clash') or contains(priority,'eva')",
        Err(86),
    ),
    ("assigned_to eq null@and index le 7", Err(19)),
    (
        "not contains(descr)ption,'it''s') and not stage le null",
        Err(13),
    ),
    (
        "contains(priority,'eva') or not creation_date ne 2024-05-01T11:59:59(Z",
        Err(49),
    ),
    ("due_date ne null or 'reation_author ne 'Clash'", Err(20)),
    (
        "priority ne null and modified_date le 2024-05-01 or title gt ''",
        Err(38),
    ),
    ("(contains(description,'')) or not index ge 1.5", Err(43)),
    ("not not index ge +-7", Err(17)),
    (
        "(contains(topic_type,'') and creation_date gt 2024-05-01T12:00:01Z) or not index eq 1.5 and (due_date ) 2024-05-01T12:00:01Z)",
        Err(84),
    ),
    (
        "not assigned_to lt 'é' or modified_date ge 1969-12-31T00:00:00Z or contains(assigned_to,'a') and contains(assigned_to,'é') or (contains(topic_status,'a')) and modified_datele 2030-01-01T00:00:00.5-02:00",
        Err(44),
    ),
    ("index eq 7 or (contains(description,'it''s'),)", Err(44)),
];
