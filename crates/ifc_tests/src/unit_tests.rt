//! Length units and points of small files.
use crate::small_files::{exchange_in_parts, exchange_of};
use bim_model::{BuildError, Mode, Point, UploadFault};
use ifc_units::{
    FOOT, GridFault, INCH, LengthError, Scale, fault_of_points, length, length_unit, point, points,
};
use p21_reader::{Exchange, Values};
use std::alloc::{AllocError, Global};
use std::process::Abort;
use std::test::Fail;

/// The factor and the power of a file's unit, or the number that the fault has.
type Unit = Result<(u64, i32), u64>;

/// The instances of a file, and its unit.
static UNITS: [(&[u8], Unit); 33] = [
    (
        b"#1=IFCPROJECT($,$,$,$,$,$,$,$,#2);#2=IFCUNITASSIGNMENT((#3));#3=IFCSIUNIT(*,.LENGTHUNIT.,.MILLI.,.METRE.);",
        Ok((1, 0)),
    ),
    (
        b"#1=IFCPROJECT($,$,$,$,$,$,$,$,#2);#2=IFCUNITASSIGNMENT((#3));#3=IFCSIUNIT(*,.LENGTHUNIT.,$,.METRE.);",
        Ok((1, 3)),
    ),
    (
        b"#1=IFCPROJECT($,$,$,$,$,$,$,$,#2);#2=IFCUNITASSIGNMENT((#3));#3=IFCSIUNIT(*,.LENGTHUNIT.,*,.METRE.);",
        Ok((1, 3)),
    ),
    (
        b"#1=IFCPROJECT($,$,$,$,$,$,$,$,#2);#2=IFCUNITASSIGNMENT((#3));#3=IFCSIUNIT(*,.LENGTHUNIT.,.KILO.,.METRE.);",
        Ok((1, 6)),
    ),
    (
        b"#1=IFCPROJECT($,$,$,$,$,$,$,$,#2);#2=IFCUNITASSIGNMENT((#3));#3=IFCSIUNIT(*,.LENGTHUNIT.,.HECTO.,.METRE.);",
        Ok((1, 5)),
    ),
    (
        b"#1=IFCPROJECT($,$,$,$,$,$,$,$,#2);#2=IFCUNITASSIGNMENT((#3));#3=IFCSIUNIT(*,.LENGTHUNIT.,.DECA.,.METRE.);",
        Ok((1, 4)),
    ),
    (
        b"#1=IFCPROJECT($,$,$,$,$,$,$,$,#2);#2=IFCUNITASSIGNMENT((#3));#3=IFCSIUNIT(*,.LENGTHUNIT.,.DECI.,.METRE.);",
        Ok((1, 2)),
    ),
    (
        b"#1=IFCPROJECT($,$,$,$,$,$,$,$,#2);#2=IFCUNITASSIGNMENT((#3));#3=IFCSIUNIT(*,.LENGTHUNIT.,.CENTI.,.METRE.);",
        Ok((1, 1)),
    ),
    (
        b"#1=IFCPROJECT($,$,$,$,$,$,$,$,#2);#2=IFCUNITASSIGNMENT((#3));#3=IFCSIUNIT(*,.LENGTHUNIT.,.MICRO.,.METRE.);",
        Ok((1, -3)),
    ),
    (
        b"#1=IFCPROJECT($,$,$,$,$,$,$,$,#2);#2=IFCUNITASSIGNMENT((#3));#3=IFCSIUNIT(*,.LENGTHUNIT.,.NANO.,.METRE.);",
        Err(1),
    ),
    (
        b"#1=IFCPROJECT($,$,$,$,$,$,$,$,#2);#2=IFCUNITASSIGNMENT((#3));#3=IFCSIUNIT(*,.LENGTHUNIT.,.milli.,.METRE.);",
        Err(1),
    ),
    (
        b"#1=IFCPROJECT($,$,$,$,$,$,$,$,#2);#2=IFCUNITASSIGNMENT((#3));#3=IFCSIUNIT(*,.LENGTHUNIT.,$,.GRAM.);",
        Err(1),
    ),
    (
        b"#1=IFCPROJECT($,$,$,$,$,$,$,$,#2);#2=IFCUNITASSIGNMENT((#3));#3=IFCSIUNIT(*,.AREAUNIT.,$,.METRE.);",
        Err(1),
    ),
    (
        b"#1=IFCPROJECT($,$,$,$,$,$,$,$,#2);#2=IFCUNITASSIGNMENT((#4,#3,#5));#3=IFCSIUNIT(*,.LENGTHUNIT.,$,.METRE.);#4=IFCSIUNIT(*,.AREAUNIT.,$,.SQUARE_METRE.);#5=IFCCONVERSIONBASEDUNIT(#9,.PLANEANGLEUNIT.,'DEGREE',#8);",
        Ok((1, 3)),
    ),
    (
        b"#1=IFCPROJECT($,$,$,$,$,$,$,$,#2);#2=IFCUNITASSIGNMENT((#3,#3));#3=IFCSIUNIT(*,.LENGTHUNIT.,$,.METRE.);",
        Ok((1, 3)),
    ),
    (
        b"#1=IFCPROJECT($,$,$,$,$,$,$,$,#2);#2=IFCUNITASSIGNMENT((#3,#4));#3=IFCSIUNIT(*,.LENGTHUNIT.,$,.METRE.);#4=IFCSIUNIT(*,.LENGTHUNIT.,$,.METRE.);",
        Err(1),
    ),
    (
        b"#1=IFCPROJECT($,$,$,$,$,$,$,$,#2);#2=IFCUNITASSIGNMENT((#3,#4));#3=IFCSIUNIT(*,.LENGTHUNIT.,$,.METRE.);#4=IFCSIUNIT(*,.LENGTHUNIT.,$,.GRAM.);",
        Err(1),
    ),
    (
        b"#1=IFCPROJECT($,$,$,$,$,$,$,$,#2);#2=IFCUNITASSIGNMENT(());",
        Err(1),
    ),
    (
        b"#1=IFCPROJECT($,$,$,$,$,$,$,$,#2);#2=IFCUNITASSIGNMENT((#3));",
        Err(1),
    ),
    (
        b"#1=IFCPROJECT($,$,$,$,$,$,$,$,#3);#3=IFCSIUNIT(*,.LENGTHUNIT.,$,.METRE.);",
        Err(1),
    ),
    (
        b"#1=IFCPROJECT($,$,$,$,$,$,$,$,$);#2=IFCUNITASSIGNMENT((#3));#3=IFCSIUNIT(*,.LENGTHUNIT.,$,.METRE.);",
        Err(1),
    ),
    (
        b"#1=IFCPROJECT($,$,$,$,$,$,$,$);#2=IFCUNITASSIGNMENT((#3));#3=IFCSIUNIT(*,.LENGTHUNIT.,$,.METRE.);",
        Err(1),
    ),
    (
        b"#2=IFCUNITASSIGNMENT((#3));#3=IFCSIUNIT(*,.LENGTHUNIT.,$,.METRE.);",
        Err(0),
    ),
    (
        b"#9=IFCPROJECT($,$,$,$,$,$,$,$,#2);#2=IFCUNITASSIGNMENT((#3));#3=IFCSIUNIT(*,.LENGTHUNIT.,$,.METRE.);#7=IFCPROJECT($);",
        Err(7),
    ),
    (
        b"#9=IFCPROJECT($,$,$,$,$,$,$,$,#2);#2=IFCUNITASSIGNMENT((#3));#3=IFCSIUNIT(*,.LENGTHUNIT.,$,.METRE.);",
        Ok((1, 3)),
    ),
    (
        b"#1=IFCPROJECT($,$,$,$,$,$,$,$,#2);#2=IFCUNITASSIGNMENT((#5));#3=IFCSIUNIT(*,.LENGTHUNIT.,.MILLI.,.METRE.);#5=IFCCONVERSIONBASEDUNIT(#9,.LENGTHUNIT.,'FOOT',#6);#6=IFCMEASUREWITHUNIT(IFCLENGTHMEASURE(304.8),#3);",
        Ok((3048, -1)),
    ),
    (
        b"#1=IFCPROJECT($,$,$,$,$,$,$,$,#2);#2=IFCUNITASSIGNMENT((#7,#7));#3=IFCSIUNIT(*,.LENGTHUNIT.,.MILLI.,.METRE.);#7=IFCCONVERSIONBASEDUNIT(#9,.LENGTHUNIT.,'INCH',#8);#8=IFCMEASUREWITHUNIT(IFCLENGTHMEASURE(25.4),#3);",
        Ok((254, -1)),
    ),
    (
        b"#1=IFCPROJECT($,$,$,$,$,$,$,$,#2);#2=IFCUNITASSIGNMENT((#5,#7));#3=IFCSIUNIT(*,.LENGTHUNIT.,.MILLI.,.METRE.);#5=IFCCONVERSIONBASEDUNIT(#9,.LENGTHUNIT.,'FOOT',#6);#6=IFCMEASUREWITHUNIT(IFCLENGTHMEASURE(304.8),#3);#7=IFCCONVERSIONBASEDUNIT(#9,.LENGTHUNIT.,'INCH',#8);#8=IFCMEASUREWITHUNIT(IFCLENGTHMEASURE(25.4),#3);",
        Err(1),
    ),
    (
        b"#1=IFCPROJECT($,$,$,$,$,$,$,$,#2);#2=IFCUNITASSIGNMENT((#3,#5));#3=IFCSIUNIT(*,.LENGTHUNIT.,.MILLI.,.METRE.);#5=IFCCONVERSIONBASEDUNIT(#9,.LENGTHUNIT.,'FOOT',#6);#6=IFCMEASUREWITHUNIT(IFCLENGTHMEASURE(304.8),#3);",
        Err(1),
    ),
    (
        b"#1=IFCPROJECT($,$,$,$,$,$,$,$,#2);#2=IFCUNITASSIGNMENT((#5));#3=IFCSIUNIT(*,.LENGTHUNIT.,.MILLI.,.METRE.);#5=IFCCONVERSIONBASEDUNIT(#9,.LENGTHUNIT.,'FOOT',#6);",
        Err(1),
    ),
    (
        b"#1=IFCPROJECT($,$,$,$,$,$,$,$,#2);#2=IFCUNITASSIGNMENT((#5));#3=IFCSIUNIT(*,.LENGTHUNIT.,.MILLI.,.METRE.);#5=IFCCONVERSIONBASEDUNIT(#9,.LENGTHUNIT.,'FOOT',#6);#6=IFCPROPERTY(IFCLENGTHMEASURE(304.8),#3);",
        Err(1),
    ),
    (
        b"#1=IFCPROJECT($,$,$,$,$,$,$,$,#2);#2=IFCUNITASSIGNMENT((#5));#3=IFCSIUNIT(*,.AREAUNIT.,.MILLI.,.METRE.);#5=IFCCONVERSIONBASEDUNIT(#9,.LENGTHUNIT.,'FOOT',#6);#6=IFCMEASUREWITHUNIT(IFCLENGTHMEASURE(304.8),#3);",
        Err(1),
    ),
    (
        b"#1=IFCPROJECT($,$,$,$,$,$,$,$,#2);#2=IFCUNITASSIGNMENT((#7));#3=IFCCONVERSIONBASEDUNIT(#9,.LENGTHUNIT.,'MM',#4);#4=IFCMEASUREWITHUNIT(1.,#6);#6=IFCSIUNIT(*,.LENGTHUNIT.,.MILLI.,.METRE.);#7=IFCCONVERSIONBASEDUNIT(#9,.LENGTHUNIT.,'INCH',#8);#8=IFCMEASUREWITHUNIT(IFCLENGTHMEASURE(25.4),#3);",
        Err(1),
    ),
];

fn unit_of(exchange: &Exchange) -> Unit {
    match length_unit(exchange) {
        Ok(scale) => Ok((scale.factor, scale.power)),
        Err(UploadFault::LengthUnit { id }) => Err(id),
        Err(_) => Err(99),
    }
}

#[test]
fn the_length_unit_is_found(rt: HostRuntime) -> Result<(), Fail> {
    for (text, wanted) in UNITS.iter() {
        let exchange = exchange_of(rt.alloc(), text)?;
        let found = unit_of(&exchange);
        drop(exchange);
        assert_eq!(rt; found, *wanted);
    }
    Ok(())
}

const INCHES: Unit = Ok((INCH, -1));

const FEET: Unit = Ok((FOOT, -1));

const NONE: Unit = Err(1);

/// The value of a measure, the prefix of its metre, and what the unit that is converted to it is.
static MEASURES: [(&str, &str, Unit); 33] = [
    ("IFCLENGTHMEASURE(25.4)", ".MILLI.", INCHES),
    ("25.4", ".MILLI.", INCHES),
    ("IFCRATIOMEASURE(25.4)", ".MILLI.", INCHES),
    ("2.54E1", ".MILLI.", INCHES),
    ("25.4000009", ".MILLI.", INCHES),
    ("25.400001", ".MILLI.", NONE),
    ("25.3999991", ".MILLI.", INCHES),
    ("25.399999", ".MILLI.", NONE),
    ("IFCLENGTHMEASURE(-25.4)", ".MILLI.", NONE),
    ("0.", ".MILLI.", NONE),
    ("0.0254", "$", INCHES),
    ("0.0254000009", "$", INCHES),
    ("0.025400001", "$", NONE),
    ("2.54", ".CENTI.", INCHES),
    ("0.254", ".DECI.", INCHES),
    ("25400.", ".MICRO.", INCHES),
    ("25400.001", ".MICRO.", NONE),
    ("0.0000254", ".KILO.", INCHES),
    ("25.4", ".CENTI.", NONE),
    ("25.4", "$", NONE),
    ("IFCLENGTHMEASURE(304.8)", ".MILLI.", FEET),
    ("0.3048", "$", FEET),
    ("304.8000009", ".MILLI.", FEET),
    ("304.800001", ".MILLI.", NONE),
    ("304.7999991", ".MILLI.", FEET),
    ("304.799999", ".MILLI.", NONE),
    ("304.8006", ".MILLI.", NONE),
    ("IFCLENGTHMEASURE(304.80060960)", ".MILLI.", NONE),
    ("0.3048006096", "$", NONE),
    ("914.4", ".MILLI.", NONE),
    ("'25.4'", ".MILLI.", NONE),
    ("$", ".MILLI.", NONE),
    ("25.4", ".NANO.", NONE),
];

/// The unit that is converted to a measure.
fn converted(alloc: Global, value: &str, prefix: &str) -> Result<Unit, BuildError> {
    let parts = [
        b"#1=IFCPROJECT($,$,$,$,$,$,$,$,#2);#2=IFCUNITASSIGNMENT((#3));".as_slice(),
        b"#3=IFCCONVERSIONBASEDUNIT($,.LENGTHUNIT.,'UNIT',#4);#4=IFCMEASUREWITHUNIT(".as_slice(),
        value.as_bytes(),
        b",#5);#5=IFCSIUNIT(*,.LENGTHUNIT.,".as_slice(),
        prefix.as_bytes(),
        b",.METRE.);".as_slice(),
    ];
    let exchange = exchange_in_parts(alloc, &parts)?;
    let found = unit_of(&exchange);
    drop(exchange);
    Ok(found)
}

#[test]
fn inches_and_feet_are_found(rt: HostRuntime) -> Result<(), Fail> {
    for (value, prefix, wanted) in MEASURES.iter() {
        let found = converted(rt.alloc(), value, prefix)?;
        assert_eq!(rt; found, *wanted, "at {value} {prefix}");
    }
    Ok(())
}

/// An instance, and the fault of its points in millimetres.
static POINTS: [(&[u8], Option<GridFault>); 11] = [
    (b"#1=IFCCARTESIANPOINT((1.,2.5,-3.1));", None),
    (
        b"#1=IFCCARTESIANPOINT((1.55,900000.,3.));",
        Some(GridFault::OffGrid),
    ),
    (
        b"#1=IFCCARTESIANPOINT((1.,900000.,3.55));",
        Some(GridFault::TooFar),
    ),
    (
        b"#1=IFCCARTESIANPOINT((1.,2.,3.55));",
        Some(GridFault::OffGrid),
    ),
    (b"#1=IFCCARTESIANPOINT((1.,2.55));", None),
    (b"#1=IFCCARTESIANPOINT($);", None),
    (b"#1=IFCCARTESIANPOINT();", None),
    (
        b"#1=IFCCARTESIANPOINTLIST3D(((1.,2.,3.),(4.,5.,6.)));",
        None,
    ),
    (
        b"#1=IFCCARTESIANPOINTLIST3D(((1.,2.,3.),(1.,900000.,0.),(0.55,0.,0.)));",
        Some(GridFault::TooFar),
    ),
    (b"#1=IFCCARTESIANPOINTLIST3D(((1.,$,0.55)));", None),
    (b"#1=IFCDIRECTION((0.55,0.,0.));", None),
];

fn assert_points_fault(rt: &impl Abort, exchange: &Exchange, wanted: Option<GridFault>) {
    let scale = Scale {
        factor: 1,
        power: 0,
    };
    match exchange.iter().next() {
        Some(instance) => assert_eq!(rt; fault_of_points(&instance, scale, Mode::Exact), wanted),
        None => assert!(rt; false, "no instance"),
    }
}

#[test]
fn faults_of_points_are_found(rt: HostRuntime) -> Result<(), Fail> {
    for (text, wanted) in POINTS.iter() {
        let exchange = exchange_of(rt.alloc(), text)?;
        assert_points_fault(&rt, &exchange, *wanted);
        drop(exchange);
    }
    Ok(())
}

const METRES: Scale = Scale {
    factor: 1,
    power: 3,
};

/// The points of two rows.
const ROWS: [Point; 2] = [
    Point {
        x: 0,
        y: 10_000,
        z: 20_000,
    },
    Point {
        x: -30_000,
        y: 40_000,
        z: 50,
    },
];

/// The points of a list, snapped; in exact mode it has none.
fn assert_rows(rt: &impl Abort, alloc: Global, items: &Values<'_>) -> Result<(), AllocError> {
    match points(alloc, items, METRES, Mode::Snap)? {
        Ok(made) => {
            assert_eq!(rt; made.as_slice(), ROWS.as_slice());
            drop(made);
        }
        Err(_) => assert!(rt; false, "no points"),
    }
    match points(alloc, items, METRES, Mode::Exact)? {
        Ok(made) => {
            drop(made);
            assert!(rt; false, "off the grid");
        }
        Err(error) => assert_eq!(rt; error, LengthError::Refused(GridFault::OffGrid)),
    }
    Ok(())
}

fn first_point(items: &Values<'_>) -> Option<Result<Point, LengthError>> {
    let item = items.iter().next()?;
    Some(point(&item, METRES, Mode::Exact))
}

/// The list of points, and what is behind it.
fn assert_list(rt: &impl Abort, alloc: Global, exchange: &Exchange) -> Result<(), Fail> {
    let instance = exchange.iter().next().ok_or("no instance")?;
    let list = instance.attribute(0).ok_or("no list")?;
    let absent = instance.attribute(1).ok_or("nothing behind it")?;
    let items = list.items().ok_or("no items")?;
    assert_rows(rt, alloc, &items)?;
    assert_eq!(rt; first_point(&items), Some(Ok(ROWS[0])));
    assert_eq!(rt; point(&list, METRES, Mode::Exact), Err(LengthError::Unread));
    assert_eq!(rt;
        length(&absent, METRES, Mode::Exact),
        Err(LengthError::Unread)
    );
    Ok(())
}

#[test]
fn points_of_a_list_are_read(rt: HostRuntime) -> Result<(), Fail> {
    let data = b"#1=IFCCARTESIANPOINTLIST3D(((0.,1.,2.),(-3.00004,4.,5.E-3)),$);";
    let exchange = exchange_of(rt.alloc(), data)?;
    let looked = assert_list(&rt, rt.alloc(), &exchange);
    drop(exchange);
    looked
}
