//! The worked rows of the short forms.

use pgorder::Version;

/// Which calls are tried.
#[derive(Clone, Copy)]
pub(crate) enum Call {
    /// Of a payload: `decode` and `pass_line`, inside a stream block or not.
    Line(bool),
    /// Of a session: `show` and `pass_lines`.
    Lines(Version),
}

/// Calls, with what they must give.
pub(crate) struct Row {
    pub(crate) shows: &'static str,
    pub(crate) call: Call,
    /// What is sent: a payload in hexadecimal, or a session in words of `messages`.
    pub(crate) sent: &'static str,
    /// The number that is passed.
    pub(crate) number: u32,
    /// The length that is passed, and the whole room, which was all dots.
    pub(crate) room: (usize, &'static str),
    /// The same of the text.
    pub(crate) text: (usize, &'static str),
}

static ROWS: [Row; 8] = [
    Row {
        shows: "a line, and room behind it",
        call: Call::Line(false),
        sent: "6b0000000000000180000000000000000001",
        number: 0,
        room: (
            26,
            r#"["keepalive","0/180",0,1]
.."#,
        ),
        text: (0, ".."),
    },
    Row {
        shows: "too little room for a line",
        call: Call::Line(false),
        sent: "6b0000000000000180000000000000000001",
        number: 10,
        room: (26, "........................."),
        text: (0, ".."),
    },
    Row {
        shows: "a line of a block, and just the room for it",
        call: Call::Line(true),
        sent: "77000000000000000000000000000000000000000000000000550000000a000040004e000274000000013174000000016c",
        number: 0,
        room: (
            58,
            r#"["data","0/0","0/0",0,["Update",10,16384,null,["1","l"]]]
"#,
        ),
        text: (0, ".."),
    },
    Row {
        shows: "a fault of wire, and room behind its text",
        call: Call::Line(false),
        sent: "6b00000000000001800000000000000000",
        number: 1,
        room: (12, "wire 6 Short.."),
        text: (0, ".."),
    },
    Row {
        shows: "a fault of decode, and too little room for its text",
        call: Call::Line(false),
        sent: "7700000000000000000000000000000000000000000000000049",
        number: 2,
        room: (19, ".................."),
        text: (0, ".."),
    },
    Row {
        shows: "the lines of a session",
        call: Call::Lines(Version::Two),
        sent: "t1",
        number: 0,
        room: (
            248,
            r#"["data","0/0","0/0",0,["Begin","0/100",0,10]]
["data","0/0","0/0",0,["Relation",null,16384,"public","t","d",[[1,"id",23,-1],[0,"v",25,-1]]]]
["data","0/0","0/0",0,["Insert",null,16384,["1","a"]]]
["data","0/0","0/0",0,["Commit","0/100","0/130",0]]
.."#,
        ),
        text: (0, ".."),
    },
    Row {
        shows: "a fault of order, and just the room for its text",
        call: Call::Lines(Version::Two),
        sent: "begin:100 begin:100",
        number: 3,
        room: (
            46,
            r#"["data","0/0","0/0",0,["Begin","0/100",0,10]]
"#,
        ),
        text: (19, "order 2 NestedBegin"),
    },
    Row {
        shows: "too little room for the lines before a fault",
        call: Call::Lines(Version::Two),
        sent: "begin:100 begin:100",
        number: 10,
        room: (46, "............................................."),
        text: (0, "...................."),
    },
];

/// All rows.
pub(crate) fn rows() -> &'static [Row] {
    &ROWS
}
