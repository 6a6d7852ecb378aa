//! Files and their instances, or their first fault.
use bim_model::{BuildError, Many, UploadFault};
use p21_reader::{Exchange, InstanceRef, ValueRef, Values, read};
use std::alloc::{AllocError, Global};
use std::process::Abort;
use std::test::Fail;

static HEAD: &[u8] = b"ISO-10303-21;HEADER;FILE_SCHEMA(('IFC4'));ENDSEC;DATA;";

static TAIL: &[u8] = b"ENDSEC;END-ISO-10303-21;";

/// Whole texts, and their faults.
static TEXTS: [(&[u8], UploadFault); 13] = [
    (b"", UploadFault::NotPart21),
    (b"ISO-10303-21,", UploadFault::NotPart21),
    (b"ISO-10303-21", UploadFault::NotPart21),
    (b" HEADER;ISO-10303-21;", UploadFault::NotPart21),
    (b"?ISO-10303-21;HEADER;", UploadFault::NotPart21),
    (
        b"iso-10303-21 /* */ ;",
        UploadFault::BadStatement { at: 20 },
    ),
    (
        b"ISO-10303-21;HEADER;FILE_NAME('ab",
        UploadFault::BadToken { at: 30 },
    ),
    (
        b"ISO-10303-21;HEADER;ENDSEC;DATA;",
        UploadFault::BadStatement { at: 32 },
    ),
    (
        b"ISO-10303-21;HEADER;A(B(1,2));",
        UploadFault::BadStatement { at: 25 },
    ),
    (
        b"ISO-10303-21;HEADER;A((1,2)",
        UploadFault::BadStatement { at: 27 },
    ),
    (
        b"ISO-10303-21;HEADER;ENDSEC;ENDSEC;",
        UploadFault::BadStatement { at: 27 },
    ),
    (
        b"ISO-10303-21;HEADER;ENDSEC();%",
        UploadFault::BadToken { at: 29 },
    ),
    (
        b"\xef\xbb\xbfISO-10303-21;HEADER;ENDSEC;DATA;#1=A(1 2);",
        UploadFault::BadStatement { at: 42 },
    ),
];

/// What is behind `DATA;`, whether no token begins at its fault, and the fault's place, from the first byte on.
static SECTIONS: [(&[u8], bool, u64); 12] = [
    (b"#1=;", false, 3),
    (b"#1=A();#2=B(,);", false, 12),
    (b"#1=A($)#2=B();", false, 7),
    (b"#1=A(!);", true, 5),
    (b"#1=A(X());", false, 7),
    (b"#1=A(X(1,2));", false, 8),
    (b"#1=();", false, 4),
    (b"#1=(A()1);", false, 7),
    (b"#1=A(1);ENDSEC;DATA;", false, 15),
    (b"#1=A(1);ENDSEC;END-ISO-10303-21", false, 31),
    (
        b"#1=A(((((((((((((((((((((((((((((((((1)))))))))))))))))))))))))))))))));",
        false,
        36,
    ),
    (
        b"#1=A((((((((((((((((((((((((((((((((W(1)))))))))))))))))))))))))))))))));",
        false,
        36,
    ),
];

/// The parts of a file, joined.
fn joined(alloc: Global, parts: &[&[u8]]) -> Result<Vec<u8>, AllocError> {
    let mut whole = Vec::new(alloc);
    for part in parts {
        whole.extend_from_slice(part)?;
    }
    Ok(whole)
}

/// The fault of a file; none where it is read.
fn fault_in(alloc: Global, bytes: &[u8]) -> Result<Option<UploadFault>, AllocError> {
    match read(alloc, bytes) {
        Ok(exchange) => {
            drop(exchange);
            Ok(None)
        }
        Err(BuildError::Fault(fault)) => Ok(Some(fault)),
        Err(BuildError::Memory) => Err(AllocError),
    }
}

/// The fault of a file in parts; none where it is read.
fn fault_of(alloc: Global, parts: &[&[u8]]) -> Result<Option<UploadFault>, AllocError> {
    let bytes = joined(alloc, parts)?;
    let found = fault_in(alloc, bytes.as_slice());
    drop(bytes);
    found
}

fn fault_at(token: bool, at: u64) -> UploadFault {
    if token {
        UploadFault::BadToken { at }
    } else {
        UploadFault::BadStatement { at }
    }
}

#[test]
fn faults_stand_at_their_places(rt: HostRuntime) -> Result<(), Fail> {
    for (text, wanted) in TEXTS.iter() {
        assert_eq!(rt; fault_in(rt.alloc(), text)?, Some(*wanted));
    }
    for (section, token, at) in SECTIONS.iter() {
        let found = fault_of(rt.alloc(), &[HEAD, *section])?;
        let place = at.wrapping_add(HEAD.len() as u64);
        assert_eq!(rt; found, Some(fault_at(*token, place)));
    }
    Ok(())
}

const IFC4: &[u8] = b"FILE_SCHEMA(('IFC4'));";

const WRONG: Option<UploadFault> = Some(UploadFault::WrongSchema);

/// The statements of a header, the instances behind it, and the fault of the whole; none where it is read.
static WHOLES: [(&[u8], &[u8], Option<UploadFault>); 23] = [
    (IFC4, b"", None),
    (
        b"ENDSEC(); A(FILE_SCHEMA('IFC2X3')); file_Schema /* */ ( ( 'iFc4' ) ) ; FILE_SCHEMAS(('X'));",
        b"",
        None,
    ),
    (b"FILE_SCHEMA(('IFC4\n'));", b"", None),
    (b"FILE_SCHEMA(('\\X\\49F\\X2\\00430034\\X0\\'));", b"", None),
    (b"", b"", WRONG),
    (b"FILE_SCHEMA(('IFC2X3'));", b"", WRONG),
    (b"FILE_SCHEMA(('IFC4 '));", b"", WRONG),
    (b"FILE_SCHEMA(('IFC4'));FILE_SCHEMA(('IFC4'));", b"", WRONG),
    (
        b"FILE_SCHEMA(('IFC2X3'));FILE_SCHEMA(('IFC4'));",
        b"",
        WRONG,
    ),
    (b"FILE_SCHEMA('IFC4');", b"", WRONG),
    (b"FILE_SCHEMA(('IFC4','IFC4'));", b"", WRONG),
    (b"FILE_SCHEMA(('IFC4'),$);", b"", WRONG),
    (b"FILE_SCHEMA((('IFC4')));", b"", WRONG),
    (b"FILE_SCHEMA(X('IFC4'));", b"", WRONG),
    (b"FILE_SCHEMA((.IFC4.));", b"", WRONG),
    (b"FILE_SCHEMA();", b"", WRONG),
    (b"FILE_SCHEMA(());", b"", WRONG),
    (b"A('FILE_SCHEMA((''IFC4''));');", b"", WRONG),
    (
        IFC4,
        b"#2=A();#1=B();#3=C();#2=D();#1=E();",
        Some(UploadFault::DoubleId { id: 1 }),
    ),
    (
        IFC4,
        b"#9=A();#8=B();#9=C();#7=D();#9=E();",
        Some(UploadFault::DoubleId { id: 9 }),
    ),
    (
        IFC4,
        b"#1=(A()B());#0001=B();",
        Some(UploadFault::DoubleId { id: 1 }),
    ),
    (b"FILE_SCHEMA(('IFC2X3'));", b"#1=A();#1=A();", WRONG),
    (
        b"FILE_SCHEMA(('IFC2X3'));",
        b"#1=A();#1=A(;",
        Some(UploadFault::BadStatement { at: 68 }),
    ),
];

#[test]
fn faults_come_in_their_order(rt: HostRuntime) -> Result<(), Fail> {
    for (header, section, wanted) in WHOLES.iter() {
        let parts = [
            b"ISO-10303-21;HEADER;".as_slice(),
            *header,
            b"ENDSEC;DATA;".as_slice(),
            *section,
            TAIL,
        ];
        assert_eq!(rt; fault_of(rt.alloc(), &parts)?, *wanted);
    }
    Ok(())
}

/// The fault of so many blanks.
fn fault_of_blanks(alloc: Global, count: usize) -> Result<Option<UploadFault>, AllocError> {
    let blanks = vec![in alloc; b' '; count]?;
    let found = fault_in(alloc, blanks.as_slice());
    drop(blanks);
    found
}

#[test]
fn limits_are_kept(rt: HostRuntime) -> Result<(), Fail> {
    let most = fault_of_blanks(rt.alloc(), 33_554_432)?;
    assert_eq!(rt; most, Some(UploadFault::NotPart21));
    let more = fault_of_blanks(rt.alloc(), 33_554_433)?;
    assert_eq!(rt; more, Some(UploadFault::TooMany { what: Many::Bytes }));
    Ok(())
}

/// The exchange of these instances.
fn exchange_of(alloc: Global, section: &[u8]) -> Result<Exchange, BuildError> {
    let bytes = joined(alloc, &[HEAD, section, TAIL])?;
    let exchange = read(alloc, bytes.as_slice());
    drop(bytes);
    exchange
}

/// The keyword, and how many values there are; "-" of a complex instance.
fn assert_instance(rt: &impl Abort, exchange: &Exchange, id: u64, keyword: &str, count: usize) {
    match exchange.look(id) {
        Some(instance) => {
            assert_eq!(rt; instance.id(), id);
            assert_eq!(rt; instance.values().len(), count);
            match instance.keyword() {
                Some(word) => assert!(rt; word.is(keyword)),
                None => assert_eq!(rt; "-", keyword),
            }
        }
        None => assert!(rt; false, "it is missing"),
    }
}

static DATA: &[u8] =
    b"#7=B($,*,-1.E5,'it''s',.T.,\"0F\",#12,(),(1,(2)),ifcLabel('x'));/*c*/#3=(A()b(1,2));\n#12=a(((((((((((((((((((((((((((((((()))))))))))))))))))))))))))))))) ; ";

/// The instances of `DATA`: how many, each by its number, and its place.
fn assert_data(rt: &impl Abort, exchange: &Exchange) {
    assert_eq!(rt; exchange.len(), 3);
    assert_eq!(rt; exchange.iter().count(), 3);
    assert_eq!(rt; exchange.place_of(12), Some(2));
    assert!(rt; exchange.look(4).is_none());
    assert!(rt; exchange.instance(0).keyword().is_none());
    assert_instance(rt, exchange, 3, "-", 0);
    assert_instance(rt, exchange, 7, "B", 10);
    assert_instance(rt, exchange, 12, "A", 1);
}

/// The mark of what a value says where it stands, and the bytes that it lends.
fn lent<'a>(value: &ValueRef<'a>) -> (u8, &'a [u8]) {
    if let Some(bytes) = value.number() {
        (b'1', bytes)
    } else if let Some(bytes) = value.words() {
        (b'\'', bytes)
    } else if let Some(bytes) = value.enumeration() {
        (b'.', bytes)
    } else if value.reference().is_some() {
        (b'#', b"")
    } else if value.items().is_some() {
        (b'(', b"")
    } else if value.is_absent() {
        (b'$', b"")
    } else {
        (b'?', b"")
    }
}

/// The values of `#7` by their places: the mark of what each says, `?` of bits and behind a keyword, and the bytes that it lends.
static VALUES: [(usize, u8, &[u8]); 10] = [
    (0, b'$', b""),
    (1, b'$', b""),
    (2, b'1', b"-1.E5"),
    (3, b'\'', b"it''s"),
    (4, b'.', b"T"),
    (5, b'?', b""),
    (6, b'#', b""),
    (7, b'(', b""),
    (8, b'(', b""),
    (9, b'?', b""),
];

fn assert_value(rt: &impl Abort, instance: &InstanceRef<'_>, at: usize, mark: u8, bytes: &[u8]) {
    match instance.attribute(at) {
        Some(value) => {
            let (kind, spelling) = lent(&value);
            assert_eq!(rt; kind, mark, "at {at}");
            assert_eq!(rt; spelling, bytes, "at {at}");
        }
        None => assert!(rt; false, "no value at {at}"),
    }
}

/// The number that a value is, or that is behind its keyword.
fn assert_measure(rt: &impl Abort, instance: &InstanceRef<'_>, at: usize, wanted: Option<&[u8]>) {
    match instance.attribute(at) {
        Some(value) => assert_eq!(rt; value.measure(), wanted, "at {at}"),
        None => assert!(rt; false, "no value at {at}"),
    }
}

/// The value behind a value's keyword.
fn typed_at<'a>(instance: &InstanceRef<'a>, at: usize) -> Option<ValueRef<'a>> {
    instance.attribute(at)?.typed()
}

fn next_number<'a>(items: &mut Values<'a>) -> Option<&'a [u8]> {
    items.next()?.number()
}

fn next_count(items: &mut Values<'_>) -> Option<usize> {
    Some(items.next()?.items_in().len())
}

/// The number of `#7`'s reference, how many values its second list has, and how many that list's second item has.
fn assert_lists(rt: &impl Abort, instance: &InstanceRef<'_>) {
    assert_eq!(rt; instance.reference_at(6), Some(12));
    assert_eq!(rt; instance.listed(7).len(), 0);
    let mut items = instance.listed(8);
    assert_eq!(rt; items.len(), 2);
    assert!(rt; items.iter().three().is_none());
    assert_eq!(rt; next_number(&mut items), Some(&b"1"[..]));
    assert_eq!(rt; next_count(&mut items), Some(1));
    assert!(rt; items.next().is_none());
}

/// The value behind `#7`'s keyword, and its numbers, of which none stands behind a keyword.
fn assert_typed(rt: &impl Abort, instance: &InstanceRef<'_>) {
    match typed_at(instance, 9) {
        Some(held) => {
            assert_eq!(rt; held.words(), Some(&b"x"[..]));
            assert!(rt; held.typed().is_none());
        }
        None => assert!(rt; false, "not typed"),
    }
    assert!(rt; typed_at(instance, 2).is_none());
    assert_measure(rt, instance, 2, Some(b"-1.E5"));
    assert_measure(rt, instance, 8, None);
    assert_measure(rt, instance, 9, None);
}

/// The values of `#7`.
fn assert_values(rt: &impl Abort, exchange: &Exchange) {
    match exchange.look(7) {
        Some(instance) => {
            for (at, mark, bytes) in VALUES.iter() {
                assert_value(rt, &instance, *at, *mark, bytes);
            }
            assert!(rt; instance.attribute(10).is_none());
            assert_lists(rt, &instance);
            assert_typed(rt, &instance);
        }
        None => assert!(rt; false, "it is missing"),
    }
}

#[test]
fn instances_and_values_are_read(rt: HostRuntime) -> Result<(), Fail> {
    let exchange = exchange_of(rt.alloc(), DATA)?;
    assert_data(&rt, &exchange);
    assert_values(&rt, &exchange);
    drop(exchange);
    Ok(())
}

/// A number after a keyword, one after two, and one in a list after a keyword.
static MEASURES: &[u8] = b"#1=A(IfcLengthMeasure /*mm*/ ( 25.4 ),B(C(1.)),B((1.)));";

fn assert_measures(rt: &impl Abort, exchange: &Exchange) {
    match exchange.look(1) {
        Some(instance) => {
            assert_value(rt, &instance, 0, b'?', b"");
            assert_measure(rt, &instance, 0, Some(b"25.4"));
            assert_measure(rt, &instance, 1, None);
            assert_measure(rt, &instance, 2, None);
            match typed_at(&instance, 1) {
                Some(inner) => assert_eq!(rt; inner.measure(), Some(&b"1."[..])),
                None => assert!(rt; false, "not typed"),
            }
        }
        None => assert!(rt; false, "it is missing"),
    }
}

#[test]
fn numbers_behind_keywords(rt: HostRuntime) -> Result<(), Fail> {
    let exchange = exchange_of(rt.alloc(), MEASURES)?;
    assert_measures(&rt, &exchange);
    drop(exchange);
    Ok(())
}

/// How many instances a file has, some of them, and a number that none has.
fn assert_file(
    rt: &impl Abort,
    exchange: &Exchange,
    count: usize,
    instances: &[(u64, &str, usize)],
    absent: u64,
) {
    assert_eq!(rt; exchange.len(), count);
    for (id, keyword, values) in instances {
        assert_instance(rt, exchange, *id, keyword, *values);
    }
    assert!(rt; exchange.look(absent).is_none());
}

/// A file of one pipe.
static ONE_PIPE: &[u8] =
    b"ISO-10303-21;\nHEADER;\nFILE_DESCRIPTION((''),'2;1');\nFILE_NAME('a.ifc','2024-05-01T12:00:00',(''),(''),'','','');\nFILE_SCHEMA(('IFC4'));\nENDSEC;\nDATA;\n#1=IFCPROJECT('0000000000000000000001',$,'P',$,$,$,$,(),#2);\n#2=IFCUNITASSIGNMENT((#3));\n#3=IFCSIUNIT(*,.LENGTHUNIT.,.MILLI.,.METRE.);\n#4=IFCCARTESIANPOINTLIST3D(((0.,0.,0.),(100.,0.,0.),(0.,100.,0.)));\n#5=IFCTRIANGULATEDFACESET(#4,$,$,((1,2,3)),$);\n#6=IFCSHAPEREPRESENTATION($,'Body','Tessellation',(#5));\n#7=IFCPRODUCTDEFINITIONSHAPE($,$,(#6));\n#8=IFCPIPESEGMENT('0000000000000000000002',$,'Pipe 1',$,$,$,#7,$,$);\nENDSEC;\nEND-ISO-10303-21;\n";

static TWO_PIPES: &[u8] =
    b"ISO-10303-21;\nHEADER;\nFILE_DESCRIPTION((''),'2;1');\nFILE_NAME('a.ifc','2024-05-01T12:00:00',(''),(''),'','','');\nFILE_SCHEMA(('IFC4'));\nENDSEC;\nDATA;\n#1=IFCPROJECT('0000000000000000000001',$,'P',$,$,$,$,(),#2);\n#2=IFCUNITASSIGNMENT((#3));\n#3=IFCSIUNIT(*,.LENGTHUNIT.,.MILLI.,.METRE.);\n#10=IFCCARTESIANPOINTLIST3D(((3950.,3950.,1500.),(4050.,3950.,1500.),(3950.,4050.,1500.)));\n#11=IFCTRIANGULATEDFACESET(#10,$,$,((1,2,3)),$);\n#12=IFCSHAPEREPRESENTATION($,'Body','Tessellation',(#11));\n#13=IFCPRODUCTDEFINITIONSHAPE($,$,(#12));\n#14=IFCPIPESEGMENT('0000000000000000000011',$,'0000000000000000000011',$,$,$,#13,$,$);\n#20=IFCCARTESIANPOINTLIST3D(((3950.,3950.,1510.),(4050.,3950.,1510.),(3950.,4050.,1510.)));\n#21=IFCTRIANGULATEDFACESET(#20,$,$,((1,2,3)),$);\n#22=IFCSHAPEREPRESENTATION($,'Body','Tessellation',(#21));\n#23=IFCPRODUCTDEFINITIONSHAPE($,$,(#22));\n#24=IFCPIPESEGMENT('0000000000000000000012',$,'0000000000000000000012',$,$,$,#23,$,$);\nENDSEC;\nEND-ISO-10303-21;\n";

static FOUR_PIPES: &[u8] =
    b"ISO-10303-21;\nHEADER;\nFILE_DESCRIPTION((''),'2;1');\nFILE_NAME('a.ifc','2024-05-01T12:00:00',(''),(''),'','','');\nFILE_SCHEMA(('IFC4'));\nENDSEC;\nDATA;\n#1=IFCPROJECT('0000000000000000000001',$,'P',$,$,$,$,(),#2);\n#2=IFCUNITASSIGNMENT((#3));\n#3=IFCSIUNIT(*,.LENGTHUNIT.,.MILLI.,.METRE.);\n#10=IFCCARTESIANPOINTLIST3D(((1500.,1500.,1500.),(1600.,1500.,1500.),(1500.,1600.,1500.)));\n#11=IFCTRIANGULATEDFACESET(#10,$,$,((1,2,3)),$);\n#12=IFCSHAPEREPRESENTATION($,'Body','Tessellation',(#11));\n#13=IFCPRODUCTDEFINITIONSHAPE($,$,(#12));\n#14=IFCPIPESEGMENT('0000000000000000000011',$,'0000000000000000000011',$,$,$,#13,$,$);\n#20=IFCCARTESIANPOINTLIST3D(((1500.,1500.,1550.),(1600.,1500.,1550.),(1500.,1600.,1550.)));\n#21=IFCTRIANGULATEDFACESET(#20,$,$,((1,2,3)),$);\n#22=IFCSHAPEREPRESENTATION($,'Body','Tessellation',(#21));\n#23=IFCPRODUCTDEFINITIONSHAPE($,$,(#22));\n#24=IFCPIPESEGMENT('0000000000000000000012',$,'0000000000000000000012',$,$,$,#23,$,$);\n#30=IFCCARTESIANPOINTLIST3D(((9500.,1500.,1500.),(9600.,1500.,1500.),(9500.,1600.,1500.)));\n#31=IFCTRIANGULATEDFACESET(#30,$,$,((1,2,3)),$);\n#32=IFCSHAPEREPRESENTATION($,'Body','Tessellation',(#31));\n#33=IFCPRODUCTDEFINITIONSHAPE($,$,(#32));\n#34=IFCPIPESEGMENT('0000000000000000000013',$,'0000000000000000000013',$,$,$,#33,$,$);\n#40=IFCCARTESIANPOINTLIST3D(((9500.,1500.,1700.),(9600.,1500.,1700.),(9500.,1600.,1700.)));\n#41=IFCTRIANGULATEDFACESET(#40,$,$,((1,2,3)),$);\n#42=IFCSHAPEREPRESENTATION($,'Body','Tessellation',(#41));\n#43=IFCPRODUCTDEFINITIONSHAPE($,$,(#42));\n#44=IFCPIPESEGMENT('0000000000000000000014',$,'0000000000000000000014',$,$,$,#43,$,$);\nENDSEC;\nEND-ISO-10303-21;\n";

#[test]
fn files_of_pipes_are_read(rt: HostRuntime) -> Result<(), Fail> {
    let one = read(rt.alloc(), ONE_PIPE)?;
    assert_file(
        &rt,
        &one,
        8,
        &[(1, "IFCPROJECT", 9), (8, "IFCPIPESEGMENT", 9)],
        9,
    );
    drop(one);
    let two = read(rt.alloc(), TWO_PIPES)?;
    assert_file(
        &rt,
        &two,
        13,
        &[
            (20, "IFCCARTESIANPOINTLIST3D", 1),
            (24, "IFCPIPESEGMENT", 9),
        ],
        4,
    );
    drop(two);
    let four = read(rt.alloc(), FOUR_PIPES)?;
    assert_file(&rt, &four, 23, &[(41, "IFCTRIANGULATEDFACESET", 5)], 4);
    drop(four);
    Ok(())
}

/// A file of a house: a tree of places, a slab with an escaped name, a door that is mapped, and properties.
static HOUSE: &[u8] =
    b"ISO-10303-21;\nHEADER;\nFILE_DESCRIPTION((''),'2;1');\nFILE_NAME('a.ifc','2024-05-01T12:00:00',(''),(''),'','','');\nFILE_SCHEMA(('IFC4'));\nENDSEC;\nDATA;\n#1=IFCPERSON($,'N',$,$,$,$,$,$);\n#2=IFCORGANIZATION($,'O',$,$,$);\n#3=IFCPERSONANDORGANIZATION(#1,#2,$);\n#4=IFCAPPLICATION(#2,'1','App','app');\n#5=IFCOWNERHISTORY(#3,#4,$,.ADDED.,$,$,$,1714564800);\n#8=IFCCARTESIANPOINT((0.,0.,0.));\n#9=IFCAXIS2PLACEMENT3D(#8,$,$);\n#10=IFCGEOMETRICREPRESENTATIONCONTEXT($,'Model',3,1.E-05,#9,$);\n#11=IFCSIUNIT(*,.LENGTHUNIT.,$,.METRE.);\n#12=IFCSIUNIT(*,.PLANEANGLEUNIT.,$,.RADIAN.);\n#13=IFCUNITASSIGNMENT((#11,#12));\n#14=IFCPROJECT('0000000000000000000030',#5,'House',$,$,$,$,(#10),#13);\n#15=IFCLOCALPLACEMENT($,#9);\n#16=IFCBUILDING('0000000000000000000031',#5,'B',$,$,#15,$,$,.ELEMENT.,$,$,$);\n#17=IFCCARTESIANPOINT((0.,0.,2.9999999999999996));\n#18=IFCAXIS2PLACEMENT3D(#17,$,$);\n#19=IFCLOCALPLACEMENT(#15,#18);\n#20=IFCBUILDINGSTOREY('0000000000000000000032',#5,'EG',$,$,#15,$,$,.ELEMENT.,0.);\n#21=IFCBUILDINGSTOREY('0000000000000000000033',#5,'OG 1',$,$,#19,$,$,.ELEMENT.,3.);\n#22=IFCRELAGGREGATES('0000000000000000000034',#5,$,$,#14,(#16));\n#23=IFCRELAGGREGATES('0000000000000000000035',#5,$,$,#16,(#20,#21));\n#24=IFCCARTESIANPOINTLIST3D(((0.,0.,0.),(4.,0.,0.),(4.,2.,0.),(2.,2.,0.),(2.,4.,0.),(0.,4.,0.)));\n#25=IFCINDEXEDPOLYGONALFACE((1,2,3,4,5,6));\n#26=IFCPOLYGONALFACESET(#24,.F.,(#25),$);\n#27=IFCSHAPEREPRESENTATION(#10,'Body','Tessellation',(#26));\n#28=IFCPRODUCTDEFINITIONSHAPE($,$,(#27));\n#29=IFCSLAB('0000000000000000000036',#5,'Decke \\X2\\00FC\\X0\\ber EG',$,$,#19,#28,$,.FLOOR.);\n#30=IFCCARTESIANPOINTLIST3D(((0.,0.,0.),(0.9,0.,0.),(0.9,0.,2.1),(0.,0.,2.1)));\n#31=IFCTRIANGULATEDFACESET(#30,$,.F.,((1,2,3),(1,3,4)),$);\n#32=IFCSHAPEREPRESENTATION(#10,'Body','Tessellation',(#31));\n#33=IFCREPRESENTATIONMAP(#9,#32);\n#34=IFCCARTESIANPOINT((1.,0.,0.));\n#35=IFCCARTESIANTRANSFORMATIONOPERATOR3D($,$,#34,$,$);\n#36=IFCMAPPEDITEM(#33,#35);\n#39=IFCSHAPEREPRESENTATION(#10,'Body','MappedRepresentation',(#36));\n#40=IFCPRODUCTDEFINITIONSHAPE($,$,(#39));\n#41=IFCDOOR('0000000000000000000037',#5,'T\\X\\FCr',$,$,#15,#40,$,2.1,0.9,.DOOR.,.SINGLE_SWING_LEFT.,$);\n#42=IFCRELCONTAINEDINSPATIALSTRUCTURE('0000000000000000000038',#5,$,$,(#41),#20);\n#43=IFCRELCONTAINEDINSPATIALSTRUCTURE('0000000000000000000039',#5,$,$,(#29),#21);\n#44=IFCPROPERTYSINGLEVALUE('Reference',$,IFCIDENTIFIER('x'),$);\n#45=IFCPROPERTYSET('0000000000000000000040',#5,'Pset_SlabCommon',$,(#44));\n#46=IFCRELDEFINESBYPROPERTIES('0000000000000000000041',#5,$,$,(#29),#45);\n#47=IFCCOLOURRGB($,0.5,0.5,0.5);\nENDSEC;\nEND-ISO-10303-21;\n";

#[test]
fn a_file_of_a_house_is_read(rt: HostRuntime) -> Result<(), Fail> {
    let house = read(rt.alloc(), HOUSE)?;
    assert_file(
        &rt,
        &house,
        43,
        &[(29, "IFCSLAB", 9), (44, "IFCPROPERTYSINGLEVALUE", 4)],
        37,
    );
    drop(house);
    Ok(())
}
