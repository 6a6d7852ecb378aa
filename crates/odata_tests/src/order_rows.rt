//! Orders of the sample topics, with what an independent program made of each.
use crate::table_rows::Row;

/// A text, and what it lists or where it is refused.
pub static ORDERS: [Row; 124] = [
    (
        "title",
        Ok(&[13, 34, 4, 10, 22, 25, 40, 7, 1, 37, 19, 16, 31, 28]),
    ),
    (
        "title asc",
        Ok(&[13, 34, 4, 10, 22, 25, 40, 7, 1, 37, 19, 16, 31, 28]),
    ),
    (
        "title desc",
        Ok(&[28, 31, 16, 19, 1, 37, 7, 40, 25, 22, 4, 10, 34, 13]),
    ),
    (
        "index",
        Ok(&[1, 16, 25, 28, 34, 40, 13, 7, 19, 4, 22, 37, 31, 10]),
    ),
    (
        "index desc",
        Ok(&[10, 31, 4, 22, 37, 19, 7, 13, 1, 16, 25, 28, 34, 40]),
    ),
    (
        "due_date",
        Ok(&[1, 13, 16, 19, 28, 31, 37, 40, 7, 34, 4, 25, 22, 10]),
    ),
    (
        "due_date desc",
        Ok(&[10, 22, 4, 25, 34, 7, 1, 13, 16, 19, 28, 31, 37, 40]),
    ),
    (
        "creation_date",
        Ok(&[10, 16, 4, 19, 31, 34, 1, 7, 13, 22, 25, 37, 40, 28]),
    ),
    (
        "creation_date desc",
        Ok(&[28, 1, 7, 13, 22, 25, 37, 40, 4, 19, 31, 34, 10, 16]),
    ),
    (
        "modified_date",
        Ok(&[1, 7, 10, 19, 22, 25, 31, 40, 16, 13, 4, 28, 37, 34]),
    ),
    (
        "modified_date desc",
        Ok(&[34, 4, 28, 37, 13, 16, 1, 7, 10, 19, 22, 25, 31, 40]),
    ),
    (
        "creation_author",
        Ok(&[40, 25, 28, 4, 19, 31, 34, 1, 7, 13, 22, 37, 10, 16]),
    ),
    (
        "creation_author desc,title",
        Ok(&[10, 16, 13, 22, 7, 1, 37, 34, 4, 19, 31, 25, 28, 40]),
    ),
    (
        "modified_author,title",
        Ok(&[10, 22, 25, 40, 7, 1, 19, 31, 13, 34, 4, 37, 28, 16]),
    ),
    (
        "modified_author desc,title desc",
        Ok(&[16, 28, 37, 4, 34, 13, 31, 19, 1, 7, 40, 25, 22, 10]),
    ),
    (
        "priority",
        Ok(&[1, 13, 19, 25, 28, 31, 37, 40, 22, 4, 10, 34, 7, 16]),
    ),
    (
        "priority desc",
        Ok(&[16, 7, 4, 10, 34, 22, 1, 13, 19, 25, 28, 31, 37, 40]),
    ),
    (
        "priority,index",
        Ok(&[1, 25, 28, 40, 13, 19, 37, 31, 22, 34, 4, 10, 7, 16]),
    ),
    (
        "priority desc,index desc",
        Ok(&[16, 7, 10, 4, 34, 22, 31, 37, 19, 13, 1, 25, 28, 40]),
    ),
    (
        "topic_type desc,topic_status,priority",
        Ok(&[40, 7, 10, 31, 4, 25, 1, 19, 28, 37, 22, 34, 16, 13]),
    ),
    (
        "stage,assigned_to desc",
        Ok(&[37, 1, 7, 13, 16, 22, 25, 28, 31, 40, 19, 4, 34, 10]),
    ),
    (
        "description",
        Ok(&[1, 7, 13, 19, 22, 25, 34, 37, 40, 10, 16, 31, 28, 4]),
    ),
    (
        "description desc",
        Ok(&[4, 28, 31, 16, 10, 1, 7, 13, 19, 22, 25, 34, 37, 40]),
    ),
    (
        "title,index,stage,priority",
        Ok(&[13, 34, 4, 10, 22, 25, 40, 7, 1, 37, 19, 16, 31, 28]),
    ),
    (
        "title desc , index asc , stage desc , priority",
        Ok(&[28, 31, 16, 19, 1, 37, 7, 40, 25, 22, 4, 10, 34, 13]),
    ),
    (
        " title",
        Ok(&[13, 34, 4, 10, 22, 25, 40, 7, 1, 37, 19, 16, 31, 28]),
    ),
    (
        "title  ",
        Ok(&[13, 34, 4, 10, 22, 25, 40, 7, 1, 37, 19, 16, 31, 28]),
    ),
    (
        "  title desc ,  index  ",
        Ok(&[28, 31, 16, 19, 1, 37, 7, 40, 25, 22, 4, 10, 34, 13]),
    ),
    (" ", Err(1)),
    ("   ", Err(3)),
    ("title, ", Err(7)),
    (" ,title", Err(1)),
    (
        "title,title desc",
        Ok(&[13, 34, 4, 10, 22, 25, 40, 7, 1, 37, 19, 16, 31, 28]),
    ),
    (
        "title desc,title",
        Ok(&[28, 31, 16, 19, 1, 37, 7, 40, 25, 22, 4, 10, 34, 13]),
    ),
    (
        "index,index,index,index",
        Ok(&[1, 16, 25, 28, 34, 40, 13, 7, 19, 4, 22, 37, 31, 10]),
    ),
    ("title,index,stage,priority,description", Err(26)),
    ("title,index,stage,priority,", Err(26)),
    ("title,", Err(6)),
    ("title, ,index", Err(7)),
    (",title", Err(0)),
    (",", Err(0)),
    ("title,,index", Err(6)),
    ("title desc asc", Err(11)),
    ("title asc,", Err(10)),
    ("title up", Err(6)),
    ("title DESC", Err(6)),
    ("Title", Err(0)),
    ("asc", Err(0)),
    ("desc", Err(0)),
    ("desc desc", Err(0)),
    ("labels", Err(0)),
    ("labels desc", Err(0)),
    ("title,labels", Err(6)),
    ("title index", Err(6)),
    ("title;index", Err(5)),
    ("'title'", Err(0)),
    ("(title)", Err(0)),
    ("title()", Err(5)),
    ("title desc)", Err(10)),
    ("null", Err(0)),
    ("title null", Err(6)),
    ("title eq 'a'", Err(6)),
    ("contains", Err(0)),
    ("guid", Err(0)),
    ("é", Err(0)),
    ("title,é", Err(6)),
    ("title\t", Err(5)),
    ("title desc,index@", Err(16)),
    ("@title", Err(0)),
    ("title.desc", Err(0)),
    ("title-desc", Err(0)),
    ("", Err(0)),
    (
        "due_date, creation_date asc, title asc",
        Ok(&[16, 19, 31, 13, 40, 1, 37, 28, 7, 34, 4, 25, 22, 10]),
    ),
    (
        " modified_author desc,creation_date asc,modified_author,stage,creation_date desc  ",
        Err(61),
    ),
    (
        "priority desc,modified_date desc,modified_author asc",
        Ok(&[16, 7, 34, 4, 10, 22, 28, 37, 13, 1, 19, 25, 31, 40]),
    ),
    (
        "topic_type desc",
        Ok(&[40, 7, 4, 10, 31, 25, 1, 13, 16, 19, 22, 28, 34, 37]),
    ),
    (
        "due_date asc,modified_date desc,due_date desc,title desc",
        Ok(&[28, 37, 13, 16, 31, 19, 1, 40, 7, 34, 4, 25, 22, 10]),
    ),
    (
        "modified_date desc, description desc",
        Ok(&[34, 4, 28, 37, 13, 16, 31, 10, 1, 7, 19, 22, 25, 40]),
    ),
    (
        "priority asc,priority desc",
        Ok(&[1, 13, 19, 25, 28, 31, 37, 40, 22, 4, 10, 34, 7, 16]),
    ),
    (
        "creation_author,priority asc",
        Ok(&[40, 25, 28, 19, 31, 4, 34, 1, 13, 37, 22, 7, 10, 16]),
    ),
    (
        "modified_author asc, modified_date desc",
        Ok(&[1, 7, 10, 19, 22, 25, 31, 40, 34, 13, 4, 28, 37, 16]),
    ),
    (
        "modified_date desc,title desc",
        Ok(&[34, 28, 37, 4, 13, 16, 31, 19, 1, 7, 40, 25, 22, 10]),
    ),
    (
        "modified_author desc, title asc",
        Ok(&[16, 4, 37, 28, 13, 34, 10, 22, 25, 40, 7, 1, 19, 31]),
    ),
    (
        " creation_author desc ,stage desc  ",
        Ok(&[10, 16, 1, 7, 13, 22, 37, 4, 34, 19, 31, 25, 28, 40]),
    ),
    (
        "modified_author",
        Ok(&[1, 7, 10, 19, 22, 25, 31, 40, 13, 34, 4, 28, 37, 16]),
    ),
    (
        "topic_type asc",
        Ok(&[1, 13, 16, 19, 22, 28, 34, 37, 25, 4, 10, 31, 7, 40]),
    ),
    (
        " index desc  ",
        Ok(&[10, 31, 4, 22, 37, 19, 7, 13, 1, 16, 25, 28, 34, 40]),
    ),
    (
        "modified_date desc,stage desc",
        Ok(&[34, 4, 28, 37, 13, 16, 10, 19, 1, 7, 22, 25, 31, 40]),
    ),
    (
        "topic_type ,topic_type asc ,creation_date asc",
        Ok(&[16, 19, 34, 1, 13, 22, 37, 28, 25, 10, 4, 31, 7, 40]),
    ),
    (
        "description asc, index desc",
        Ok(&[22, 37, 19, 7, 13, 1, 25, 34, 40, 10, 16, 31, 28, 4]),
    ),
    (
        " due_date desc, description asc, stage  ",
        Ok(&[10, 22, 25, 4, 34, 7, 1, 13, 37, 40, 19, 16, 31, 28]),
    ),
    (
        "title desc,modified_date desc,description,index desc",
        Ok(&[28, 31, 16, 19, 37, 1, 7, 40, 25, 22, 4, 10, 34, 13]),
    ),
    (
        "title desc ,topic_type ,due_date desc ,creation_date desc",
        Ok(&[28, 31, 16, 19, 1, 37, 7, 40, 25, 22, 10, 4, 34, 13]),
    ),
    (
        "due_date asc",
        Ok(&[1, 13, 16, 19, 28, 31, 37, 40, 7, 34, 4, 25, 22, 10]),
    ),
    (
        "priority desc,due_date",
        Ok(&[16, 7, 34, 4, 10, 22, 1, 13, 19, 28, 31, 37, 40, 25]),
    ),
    (
        "description desc, title desc",
        Ok(&[4, 28, 31, 16, 10, 19, 1, 37, 7, 40, 25, 22, 34, 13]),
    ),
    (
        "description desc,priority desc",
        Ok(&[4, 28, 31, 16, 10, 7, 34, 22, 1, 13, 19, 25, 37, 40]),
    ),
    (
        "due_date asc,topic_type desc,description desc",
        Ok(&[40, 31, 28, 16, 1, 13, 19, 37, 7, 34, 4, 25, 22, 10]),
    ),
    (
        "modified_author, title, stage asc, stage asc",
        Ok(&[10, 22, 25, 40, 7, 1, 19, 31, 13, 34, 4, 37, 28, 16]),
    ),
    (
        "index asc ,creation_date desc ,priority asc ,index",
        Ok(&[28, 1, 25, 40, 34, 16, 13, 7, 19, 37, 22, 4, 31, 10]),
    ),
    (
        "creation_date desc,creation_date desc,index asc",
        Ok(&[28, 1, 25, 40, 13, 7, 22, 37, 34, 19, 4, 31, 16, 10]),
    ),
    (
        "description, description asc, title desc, due_date",
        Ok(&[19, 1, 37, 7, 40, 25, 22, 34, 13, 10, 16, 31, 28, 4]),
    ),
    (
        "modified_date, topic_type desc, index asc, modified_date asc, description",
        Err(60),
    ),
    (
        "modified_author desc,stage asc,creation_author desc,index",
        Ok(&[16, 37, 28, 4, 13, 34, 1, 7, 22, 31, 25, 40, 19, 10]),
    ),
    (
        "index desc, priority asc, modified_author desc, due_date",
        Ok(&[10, 31, 37, 22, 4, 19, 7, 13, 28, 1, 40, 25, 34, 16]),
    ),
    ("title desc,labels", Err(11)),
    (
        "title desc,due_date desc,modified_date asc",
        Ok(&[28, 31, 16, 19, 1, 37, 7, 40, 25, 22, 10, 4, 34, 13]),
    ),
    (
        " title desc, modified_author desc  ",
        Ok(&[28, 31, 16, 19, 37, 1, 7, 40, 25, 22, 4, 10, 34, 13]),
    ),
    (
        " due_date desc,modified_author desc,due_date  ",
        Ok(&[10, 22, 4, 25, 34, 7, 16, 28, 37, 13, 1, 19, 31, 40]),
    ),
    (
        "modified_author asc",
        Ok(&[1, 7, 10, 19, 22, 25, 31, 40, 13, 34, 4, 28, 37, 16]),
    ),
    (
        "title desc,creation_author asc,creation_date asc",
        Ok(&[28, 31, 16, 19, 1, 37, 7, 40, 25, 22, 4, 10, 34, 13]),
    ),
    (
        "priority desc,due_date desc,creation_date desc,title",
        Ok(&[16, 7, 10, 4, 34, 22, 25, 28, 13, 40, 1, 37, 19, 31]),
    ),
    (
        "modified_date desc,creation_author desc",
        Ok(&[34, 37, 4, 28, 13, 16, 10, 1, 7, 22, 19, 31, 25, 40]),
    ),
    (
        "title desc,creation_author asc",
        Ok(&[28, 31, 16, 19, 1, 37, 7, 40, 25, 22, 4, 10, 34, 13]),
    ),
    (
        "index,title asc,creation_author asc",
        Ok(&[34, 25, 40, 1, 16, 28, 13, 7, 19, 4, 22, 37, 31, 10]),
    ),
    (
        "stage asc ,modified_author desc ,topic_type asc ,description desc ,due_date desc",
        Err(66),
    ),
    (
        "priority ,description asc",
        Ok(&[1, 13, 19, 25, 37, 40, 31, 28, 22, 34, 10, 4, 7, 16]),
    ),
    (
        "creation_author desc",
        Ok(&[10, 16, 1, 7, 13, 22, 37, 4, 19, 31, 34, 25, 28, 40]),
    ),
    (
        "modified_date desc ,creation_author desc ,creation_date asc ,stage desc ,modified_date desc",
        Err(72),
    ),
    (
        "topic_type desc,stage,topic_type asc,topic_type desc",
        Ok(&[40, 7, 31, 4, 10, 25, 1, 13, 16, 22, 28, 37, 19, 34]),
    ),
    (
        "creation_author desc,title desc,stage asc",
        Ok(&[16, 10, 1, 37, 7, 22, 13, 31, 19, 4, 34, 28, 25, 40]),
    ),
    (
        "index,priority,creation_date desc,modified_author desc",
        Ok(&[28, 1, 25, 40, 34, 16, 13, 7, 19, 37, 22, 4, 31, 10]),
    ),
    (
        "modified_author desc,topic_type asc",
        Ok(&[16, 28, 37, 4, 13, 34, 1, 19, 22, 25, 10, 31, 7, 40]),
    ),
    (
        "stage, topic_type desc",
        Ok(&[40, 7, 31, 25, 1, 13, 16, 22, 28, 37, 19, 4, 34, 10]),
    ),
];
