//! The keywords of the entities that are followed, each with a number.
ghost use Rattle.std.specs.Prelude.{◌≡◌, ◌<◌, ◌≤◌, ℕ, [], List, Option, Some, IfSome, IfNone, length, map, slice_index_or};
ghost use Rattle.std.specs.Char.{to_ascii_uppercase};
ghost use Rattle.std.specs.Str.{bytes_eq};
ghost use Rattle.ifc_keywords.specs.Codes.{code_of as code_said, code_at, hash_of, known};

/// How many keywords are followed.
pub const KEYWORDS: u8 = 77;

/// From this number on they are those of elements; each before it is the only one of its entity.
pub const FIRST_ELEMENT: u8 = 22;

/// The keywords in the order of their numbers. This and the next table are made by `tools/keywords.py`.
const KNOWN: [&str; KEYWORDS as usize] = [
    "IFCPROJECT",
    "IFCUNITASSIGNMENT",
    "IFCSIUNIT",
    "IFCBUILDINGSTOREY",
    "IFCRELAGGREGATES",
    "IFCRELCONTAINEDINSPATIALSTRUCTURE",
    "IFCPRODUCTDEFINITIONSHAPE",
    "IFCSHAPEREPRESENTATION",
    "IFCLOCALPLACEMENT",
    "IFCAXIS2PLACEMENT3D",
    "IFCCARTESIANPOINT",
    "IFCDIRECTION",
    "IFCCARTESIANPOINTLIST3D",
    "IFCTRIANGULATEDFACESET",
    "IFCPOLYGONALFACESET",
    "IFCINDEXEDPOLYGONALFACE",
    "IFCINDEXEDPOLYGONALFACEWITHVOIDS",
    "IFCMAPPEDITEM",
    "IFCREPRESENTATIONMAP",
    "IFCCARTESIANTRANSFORMATIONOPERATOR3D",
    "IFCCONVERSIONBASEDUNIT",
    "IFCMEASUREWITHUNIT",
    "IFCBEAM",
    "IFCBEAMSTANDARDCASE",
    "IFCBUILDINGELEMENTPROXY",
    "IFCCHIMNEY",
    "IFCCOLUMN",
    "IFCCOLUMNSTANDARDCASE",
    "IFCCOVERING",
    "IFCCURTAINWALL",
    "IFCDOOR",
    "IFCDOORSTANDARDCASE",
    "IFCELEMENTASSEMBLY",
    "IFCFOOTING",
    "IFCFURNISHINGELEMENT",
    "IFCFURNITURE",
    "IFCMEMBER",
    "IFCMEMBERSTANDARDCASE",
    "IFCPILE",
    "IFCPLATE",
    "IFCPLATESTANDARDCASE",
    "IFCRAILING",
    "IFCRAMP",
    "IFCRAMPFLIGHT",
    "IFCROOF",
    "IFCSHADINGDEVICE",
    "IFCSLAB",
    "IFCSLABSTANDARDCASE",
    "IFCSTAIR",
    "IFCSTAIRFLIGHT",
    "IFCTRANSPORTELEMENT",
    "IFCWALL",
    "IFCWALLSTANDARDCASE",
    "IFCWINDOW",
    "IFCWINDOWSTANDARDCASE",
    "IFCDISTRIBUTIONELEMENT",
    "IFCDISTRIBUTIONFLOWELEMENT",
    "IFCFLOWSEGMENT",
    "IFCFLOWFITTING",
    "IFCFLOWTERMINAL",
    "IFCFLOWCONTROLLER",
    "IFCPIPESEGMENT",
    "IFCPIPEFITTING",
    "IFCDUCTSEGMENT",
    "IFCDUCTFITTING",
    "IFCCABLESEGMENT",
    "IFCCABLECARRIERSEGMENT",
    "IFCVALVE",
    "IFCPUMP",
    "IFCFAN",
    "IFCBOILER",
    "IFCTANK",
    "IFCAIRTERMINAL",
    "IFCDAMPER",
    "IFCLIGHTFIXTURE",
    "IFCOUTLET",
    "IFCSANITARYTERMINAL",
];

/// The number of the keyword that may have each hash; 255 where none has it.
const TABLE: [u8; 512] = [
    255, 32, 255, 255, 56, 255, 9, 255, 255, 58, 255, 255, 255, 255, 255, 255, 255, 255, 255, 255,
    255, 255, 255, 255, 255, 255, 255, 255, 255, 255, 255, 255, 255, 37, 255, 255, 255, 255, 255,
    255, 255, 255, 255, 255, 255, 71, 255, 255, 255, 255, 255, 255, 255, 255, 255, 255, 42, 255,
    255, 255, 255, 255, 255, 255, 255, 255, 255, 24, 46, 255, 255, 255, 255, 255, 255, 255, 7, 255,
    255, 255, 255, 255, 255, 31, 255, 27, 255, 255, 255, 15, 73, 53, 255, 255, 255, 255, 255, 255,
    255, 255, 255, 255, 255, 255, 255, 255, 255, 255, 255, 255, 66, 255, 255, 255, 255, 255, 255,
    4, 255, 255, 255, 17, 255, 255, 255, 255, 255, 40, 255, 255, 255, 255, 255, 255, 255, 255, 255,
    255, 44, 255, 43, 255, 255, 255, 26, 255, 10, 255, 255, 255, 255, 255, 255, 255, 11, 255, 255,
    255, 255, 16, 255, 255, 255, 255, 255, 255, 255, 255, 255, 255, 255, 255, 255, 255, 255, 255,
    255, 255, 255, 255, 63, 255, 255, 39, 255, 255, 255, 255, 255, 255, 255, 255, 255, 255, 255,
    255, 255, 255, 255, 255, 50, 41, 255, 255, 255, 255, 255, 255, 255, 255, 255, 255, 255, 255,
    255, 255, 36, 255, 255, 255, 61, 255, 255, 255, 255, 255, 12, 255, 255, 255, 255, 255, 255,
    255, 255, 255, 255, 255, 255, 255, 255, 255, 255, 28, 255, 255, 255, 255, 34, 255, 30, 255,
    255, 255, 255, 255, 255, 255, 255, 255, 255, 47, 255, 255, 255, 255, 75, 3, 55, 255, 70, 255,
    57, 255, 255, 255, 255, 255, 69, 255, 255, 255, 255, 255, 255, 25, 255, 255, 255, 255, 2, 255,
    255, 255, 255, 255, 255, 255, 255, 255, 255, 255, 49, 255, 48, 255, 255, 255, 255, 255, 255,
    255, 255, 255, 255, 255, 255, 255, 29, 255, 255, 255, 255, 255, 255, 255, 255, 255, 255, 255,
    255, 255, 255, 255, 19, 255, 255, 255, 21, 255, 255, 255, 255, 22, 255, 255, 255, 255, 255,
    255, 255, 255, 255, 255, 255, 67, 255, 255, 255, 255, 255, 255, 255, 35, 68, 255, 255, 255,
    255, 255, 255, 255, 255, 255, 255, 255, 255, 255, 65, 255, 255, 255, 255, 255, 255, 255, 255,
    255, 255, 255, 255, 255, 8, 255, 51, 255, 18, 255, 255, 255, 255, 255, 255, 38, 255, 255, 255,
    255, 255, 255, 255, 255, 255, 255, 255, 255, 255, 255, 255, 255, 255, 255, 255, 255, 255, 255,
    255, 6, 255, 64, 255, 255, 255, 255, 255, 255, 255, 255, 255, 255, 255, 255, 255, 255, 255, 52,
    255, 255, 255, 255, 72, 255, 13, 255, 20, 255, 255, 255, 255, 255, 255, 255, 1, 255, 255, 45,
    255, 255, 255, 62, 255, 255, 14, 255, 255, 74, 255, 255, 255, 255, 255, 255, 255, 255, 255,
    255, 60, 5, 255, 255, 76, 255, 0, 54, 255, 255, 255, 33, 255, 255, 59, 255, 255, 23, 255, 255,
    255, 255, 255, 255, 255, 255,
];

/// Whether the bytes are this word, in letters of either case.
pub fn is_word(bytes: &[u8], word: &[u8]) -> bool
    ensures { result ≡ bytes_eq (map to_ascii_uppercase bytes.now) word.now }
{
    if bytes.len() != word.len() {
        return false;
    }
    let mut at = 0;
    while at < bytes.len() {
        if bytes[at].to_ascii_uppercase() != word[at] {
            return false;
        }
        at += 1;
    }
    true
}

/// A byte, as a letter in upper case.
fn upper_at(word: &[u8], at: usize) -> usize
    requires { at < length word.now }
    ensures upper { result ≡ slice_index_or (map to_ascii_uppercase word.now) at 0 }
    ensures small { result < 256 }
{
    word[at].to_ascii_uppercase() as usize
}

/// A hash of a word, in letters of either case.
fn hash(word: &[u8]) -> usize
    requires long { 4 ≤ length word.now }
    requires short { length word.now < 4294967296 }
    ensures hash { result ≡ hash_of (map to_ascii_uppercase word.now) }
    ensures small { result < 512 }
{
    let size = word.len();
    let third = upper_at(word, 3);
    let middle = upper_at(word, size / 2);
    let last = upper_at(word, size - 1);
    (4 * size + 46 * third + 56 * middle + 43 * last) % 512
}

/// One of these words.
fn word_of<'a>(words: &[&'a str], code: usize) -> &'a str
    requires { code < length words.now }
    ensures { result.now ≡ slice_index_or (map (λ w. w.now) words.now) code [] }
{
    words[code]
}

/// The keyword of that number.
fn word_at(code: usize) -> &'static str
    requires { code < KEYWORDS }
    ensures { result.now ≡ slice_index_or known code [] }
{
    word_of(&KNOWN, code)
}

/// The keyword that has that number, in upper case; none where no known one has.
pub fn known_word(code: u8) -> Option<&'static str>
    ensures some { IfSome result (λ word. (keyword : Option (List ℕ)) → code_at keyword ≡ code
        → keyword ≡ Some word.now) }
    ensures none { IfNone result (KEYWORDS ≤ code) }
{
    if code < KEYWORDS {
        Some(word_at(code as usize))
    } else {
        None
    }
}

/// The number of the keyword that may have that hash.
fn entry(hash: usize) -> u8
    requires { hash < 512 }
    ensures { (k : ℕ) → k < KEYWORDS → hash_of (slice_index_or known k []) ≡ hash → result ≡ k }
{
    TABLE[hash]
}

/// The number of a keyword, in letters of either case; 255 of one that isn't known.
pub fn code_of(word: &[u8]) -> u8
    requires { length word.now < 4294967296 }
    ensures { result ≡ code_said (map to_ascii_uppercase word.now) }
{
    if word.len() < 4 {
        return 255;
    }
    let code = entry(hash(word));
    if code < KEYWORDS {
        let known = word_at(code as usize).as_bytes();
        if word == known || is_word(word, known) {
            return code;
        }
    }
    255
}
