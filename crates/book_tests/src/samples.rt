//! Models and requests of the tests.
ghost use Rattle.std.specs.Prelude.{◌<◌, IfOk};
ghost use Rattle.federation_book.specs.inner.AnyTime.{IsFree};

use bcf_topics::{CommentIn, TopicBody};
use bcf_viewpoints::{CheckedBody, ViewBody};
use bim_model::{
    Author, ClassTest, Distance, Element, Guid, Items, Model, ModelTest, Moment, PER_MM, Point,
    Rule, RuleKind, Rules, Shared, StoreyTest, Text, Triangle, id_of,
};
use book_history::{BookRequest, Wanted};
use std::alloc::{AllocError, Global};
use std::test::Fail;

// A corner in millimetres.
fn corner(x: i32, y: i32, z: i32) -> Result<Point, Fail> {
    Ok(Point {
        x: x.checked_mul(PER_MM).ok_or("a corner")?,
        y: y.checked_mul(PER_MM).ok_or("a corner")?,
        z: z.checked_mul(PER_MM).ok_or("a corner")?,
    })
}

/// A triangle of a hundred millimetres, from this corner.
pub fn pipe(alloc: Global, guid: &[u8], x: i32, y: i32, z: i32) -> Result<Element, Fail> {
    let mut triangles = Items::new(alloc);
    triangles.push(Triangle {
        a: corner(x, y, z)?,
        b: corner(x.checked_add(100).ok_or("a side")?, y, z)?,
        c: corner(x, y.checked_add(100).ok_or("a side")?, z)?,
    })?;
    Ok(Element {
        guid: Guid::read(guid).ok_or("an identifier")?,
        class: Text::of(alloc, "IFCPIPESEGMENT")?,
        name: Text::of(alloc, "Pipe 1")?,
        storey: None,
        triangles,
    })
}

/// A model of elements.
pub fn model_of(alloc: Global, elements: Vec<Element>) -> Result<Shared<Model>, Fail> {
    let model = Model::checked(alloc, elements)?.ok_or("a model")?;
    Ok(Shared::new(alloc, model)?)
}

/// One pipe at zero.
pub fn one_pipe(alloc: Global) -> Result<Shared<Model>, Fail> {
    let mut elements = Vec::new(alloc);
    elements.push(pipe(alloc, b"0000000000000000000002", 0, 0, 0)?)?;
    model_of(alloc, elements)
}

/// Two pipes 50 millimetres apart, and two others far from them, of which one is at this height.
pub fn four_pipes(alloc: Global, height: i32) -> Result<Shared<Model>, Fail> {
    let mut elements = Vec::new(alloc);
    elements.push(pipe(alloc, b"0000000000000000000011", 1500, 1500, 1500)?)?;
    elements.push(pipe(alloc, b"0000000000000000000012", 1500, 1500, 1550)?)?;
    elements.push(pipe(alloc, b"0000000000000000000013", 9500, 1500, 1500)?)?;
    elements.push(pipe(alloc, b"0000000000000000000014", 9500, 1500, height)?)?;
    model_of(alloc, elements)
}

/// Two pipes 10 millimetres apart, across the corner of four cells.
pub fn two_pipes(alloc: Global) -> Result<Shared<Model>, Fail> {
    let mut elements = Vec::new(alloc);
    elements.push(pipe(alloc, b"0000000000000000000011", 3950, 3950, 1500)?)?;
    elements.push(pipe(alloc, b"0000000000000000000012", 3950, 3950, 1510)?)?;
    model_of(alloc, elements)
}

// A beam of one large triangle, so high up in grid numbers.
fn beam(alloc: Global, number: i32) -> Result<Element, Fail> {
    let mut chars = [48_u8; 22];
    let mut rest = number;
    for place in 0..4_usize {
        chars[21 - place] = 48 + (rest.rem_euclid(10)) as u8;
        rest = rest / 10;
    }
    let mut triangles = Items::new(alloc);
    triangles.push(Triangle {
        a: Point {
            x: 0,
            y: 0,
            z: number,
        },
        b: Point {
            x: 1000,
            y: 0,
            z: number.checked_add(1000).ok_or("a height")?,
        },
        c: Point {
            x: 0,
            y: 1000,
            z: number,
        },
    })?;
    Ok(Element {
        guid: Guid::read(&chars).ok_or("an identifier")?,
        class: Text::of(alloc, "IFCBEAM")?,
        name: Text::of(alloc, "")?,
        storey: None,
        triangles,
    })
}

/// A thousand beams whose boxes all meet and whose surfaces don't.
pub fn thousand_beams(alloc: Global) -> Result<Shared<Model>, Fail> {
    let mut elements = Vec::new(alloc);
    for number in 0..1000 {
        elements.push(beam(alloc, number)?)?;
    }
    model_of(alloc, elements)
}

/// A model is put in its place.
pub fn to_upload(alloc: Global, name: &str, model: Shared<Model>) -> Result<BookRequest, AllocError>
    ensures { IfOk result IsFree }
{
    Ok(BookRequest::Upload {
        project: id_of(1, 0),
        name: Text::of(alloc, name)?,
        model,
    })
}

/// The model of a name goes.
pub fn to_remove(alloc: Global, name: &str) -> Result<BookRequest, AllocError>
    ensures { IfOk result IsFree }
{
    Ok(BookRequest::Remove {
        project: id_of(1, 0),
        name: Text::of(alloc, name)?,
    })
}

/// Any two elements clash within so many millimetres.
pub fn rules_within(alloc: Global, distance: u32) -> Result<Rules, AllocError>
    requires { distance < 1000 }
{
    let rule = Rule {
        a: ClassTest::Any,
        b: ClassTest::Any,
        storey: StoreyTest::Any,
        level: None,
        models: ModelTest::Any,
        kind: RuleKind::Clash {
            distance: Distance::new(distance),
        },
    };
    let mut list = Vec::new(alloc);
    list.push(rule)?;
    Ok(Rules::from_vec(list))
}

/// The same, asked for.
pub fn to_set_rules(alloc: Global, distance: u32) -> Result<BookRequest, AllocError>
    requires { distance < 1000 }
    ensures { IfOk result IsFree }
{
    Ok(BookRequest::SetRules {
        project: id_of(1, 0),
        rules: rules_within(alloc, distance)?,
        weight: 45,
    })
}

/// The clashes of a version are read.
pub fn to_read(version: Wanted) -> BookRequest
    ensures { IsFree result }
{
    BookRequest::ReadClashes {
        project: id_of(1, 0),
        version,
        first: 0,
        count: 1000,
    }
}

/// Who asks in the tests.
pub fn author(alloc: Global, user: &str) -> Result<Author, AllocError> {
    Ok(Author {
        user: Text::of(alloc, user)?,
        moment: Moment::new(1_714_564_800),
    })
}

/// A topic of which only the title is said.
pub fn titled(alloc: Global, title: &str) -> Result<TopicBody, AllocError> {
    Ok(TopicBody {
        title: Text::of(alloc, title)?,
        topic_type: None,
        topic_status: None,
        priority: None,
        index: None,
        labels: Items::new(alloc),
        assigned_to: None,
        stage: None,
        description: None,
        due: None,
    })
}

/// A topic is made.
pub fn to_post(alloc: Global, project: u128, title: &str) -> Result<BookRequest, AllocError>
    ensures { IfOk result IsFree }
{
    let author = author(alloc, "anna")?;
    Ok(BookRequest::PostTopic {
        project,
        body: titled(alloc, title)?,
        author,
        weight: 17,
    })
}

/// A comment as it is sent.
pub fn said(
    alloc: Global,
    comment: &str,
    viewpoint: Option<u128>,
) -> Result<CommentIn, AllocError> {
    Ok(CommentIn {
        comment: Text::of(alloc, comment)?,
        viewpoint,
    })
}

/// A viewpoint that shows everything.
pub fn seen(alloc: Global) -> CheckedBody {
    CheckedBody::of(ViewBody {
        index: None,
        selection: Items::new(alloc),
        coloring: Items::new(alloc),
        default_visibility: true,
        exceptions: Items::new(alloc),
    })
}
