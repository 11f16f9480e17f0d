//! A long Text that grows unit by unit, an element with many attributes, and lines of a million bytes.

use crate::written::{Part, Piece, are_answered};
use std::test::Fail;

// A long Text, and units that are inserted one by one at its end.
const UNITS_AT_THE_END: &[Part] = &[
    Part {
        times: 1,
        pieces: &[Piece::Text("[\"createText\",0,\"")],
    },
    Part {
        times: 1_000_000,
        pieces: &[Piece::Text("a")],
    },
    Part {
        times: 1,
        pieces: &[Piece::Text("\"]\n")],
    },
    Part {
        times: 10_000,
        pieces: &[
            Piece::Text("[\"insertData\",1,"),
            Piece::Number(1000000, 1),
            Piece::Text(",\"b\"]\n"),
        ],
    },
    Part {
        times: 1,
        pieces: &[Piece::Text(
            "[\"length\",1]\n[\"substringData\",1,0,2]\n[\"substringData\",1,1009998,2]\n",
        )],
    },
];

const INSERTED_AT_THE_END: &[Part] = &[
    Part {
        times: 1,
        pieces: &[Piece::Text("{\"ok\":1}\n")],
    },
    Part {
        times: 10_000,
        pieces: &[Piece::Text("{\"ok\":null}\n")],
    },
    Part {
        times: 1,
        pieces: &[Piece::Text("{\"ok\":1010000}\n{\"ok\":\"aa\"}\n{\"ok\":\"bb\"}\n")],
    },
];

// A long Text, and units that are inserted one by one at its start.
const UNITS_AT_THE_START: &[Part] = &[
    Part {
        times: 1,
        pieces: &[Piece::Text("[\"createText\",0,\"")],
    },
    Part {
        times: 1_000_000,
        pieces: &[Piece::Text("a")],
    },
    Part {
        times: 1,
        pieces: &[Piece::Text("\"]\n")],
    },
    Part {
        times: 10_000,
        pieces: &[
            Piece::Text("[\"insertData\",1,"),
            Piece::Number(0, 0),
            Piece::Text(",\"b\"]\n"),
        ],
    },
    Part {
        times: 1,
        pieces: &[Piece::Text(
            "[\"length\",1]\n[\"substringData\",1,0,2]\n[\"substringData\",1,1009998,2]\n",
        )],
    },
];

const INSERTED_AT_THE_START: &[Part] = &[
    Part {
        times: 1,
        pieces: &[Piece::Text("{\"ok\":1}\n")],
    },
    Part {
        times: 10_000,
        pieces: &[Piece::Text("{\"ok\":null}\n")],
    },
    Part {
        times: 1,
        pieces: &[Piece::Text("{\"ok\":1010000}\n{\"ok\":\"bb\"}\n{\"ok\":\"aa\"}\n")],
    },
];

// Many attributes of one element. The first one is removed.
const ATTRIBUTES: &[Part] = &[
    Part {
        times: 1,
        pieces: &[Piece::Text("[\"createElement\",0,\"e\"]\n")],
    },
    Part {
        times: 10_000,
        pieces: &[
            Piece::Text("[\"setAttribute\",1,\"a"),
            Piece::Number(0, 1),
            Piece::Text("\",\""),
            Piece::Number(0, 1),
            Piece::Text("\"]\n"),
        ],
    },
    Part {
        times: 1,
        pieces: &[Piece::Text(
            "[\"removeAttribute\",1,\"a0\"]\n[\"getAttribute\",1,\"a9999\"]\n[\"hasAttribute\",1,\"a0\"]\n[\"attributeNames\",1]\n",
        )],
    },
];

const ATTRIBUTES_LISTED: &[Part] = &[
    Part {
        times: 1,
        pieces: &[Piece::Text("{\"ok\":1}\n")],
    },
    Part {
        times: 10_000,
        pieces: &[Piece::Text("{\"ok\":null}\n")],
    },
    Part {
        times: 1,
        pieces: &[Piece::Text("{\"ok\":null}\n{\"ok\":\"9999\"}\n{\"ok\":false}\n{\"ok\":[\"a1\"")],
    },
    Part {
        times: 9_998,
        pieces: &[Piece::Text(",\"a"), Piece::Number(2, 1), Piece::Text("\"")],
    },
    Part {
        times: 1,
        pieces: &[Piece::Text("]}\n")],
    },
];

// A line of 1,048,576 bytes, one of a byte more, and a short one.
const LONG_LINES: &[Part] = &[
    Part {
        times: 1,
        pieces: &[Piece::Text("[\"createText\",0,\"")],
    },
    Part {
        times: 1_048_557,
        pieces: &[Piece::Text("a")],
    },
    Part {
        times: 1,
        pieces: &[Piece::Text("\"]\n[\"createText\",0,\"")],
    },
    Part {
        times: 1_048_558,
        pieces: &[Piece::Text("a")],
    },
    Part {
        times: 1,
        pieces: &[Piece::Text("\"]\n[\"createText\",0,\"b\"]")],
    },
];

const LONG_LINES_ANSWERED: &[Part] = &[Part {
    times: 1,
    pieces: &[Piece::Text("{\"ok\":1}\n{\"error\":\"line-too-long\"}\n{\"ok\":2}\n")],
}];

#[test]
fn long_texts_and_lines(rt: HostRuntime) -> Result<(), Fail> {
    for (name, given, due, lines) in [
        (
            "units at the end of a long Text",
            UNITS_AT_THE_END,
            INSERTED_AT_THE_END,
            10_004,
        ),
        (
            "units at the start of a long Text",
            UNITS_AT_THE_START,
            INSERTED_AT_THE_START,
            10_004,
        ),
        (
            "an element with many attributes",
            ATTRIBUTES,
            ATTRIBUTES_LISTED,
            10_005,
        ),
        (
            "lines of a million bytes",
            LONG_LINES,
            LONG_LINES_ANSWERED,
            3,
        ),
    ] {
        are_answered(&rt, rt.alloc(), name, given, due, lines)?;
    }
    Ok(())
}
