//! Large trees: chains of elements that are printed, copied, compared and drawn by ranges, and many paragraphs that are removed and inserted again.

use crate::written::{Part, Piece, are_answered};
use std::test::Fail;

// A chain of elements below the Document, which is printed.
const CHAIN: &[Part] = &[
    Part {
        times: 10_000,
        pieces: &[
            Piece::Text("[\"createElement\",0,\"e\"]\n[\"appendChild\","),
            Piece::Number(0, 1),
            Piece::Text(","),
            Piece::Number(1, 1),
            Piece::Text("]\n"),
        ],
    },
    Part {
        times: 1,
        pieces: &[Piece::Text("[\"tree\",0]")],
    },
];

const CHAIN_PRINTED: &[Part] = &[
    Part {
        times: 10_000,
        pieces: &[
            Piece::Text("{\"ok\":"),
            Piece::Number(1, 1),
            Piece::Text("}\n{\"ok\":"),
            Piece::Number(1, 1),
            Piece::Text("}\n"),
        ],
    },
    Part {
        times: 1,
        pieces: &[Piece::Text("{\"ok\":[[0,0,9,\"#document\"]")],
    },
    Part {
        times: 10_000,
        pieces: &[
            Piece::Text(",["),
            Piece::Number(1, 1),
            Piece::Text(","),
            Piece::Number(1, 1),
            Piece::Text(",1,\"e\",[]]"),
        ],
    },
    Part {
        times: 1,
        pieces: &[Piece::Text("]}\n")],
    },
];

// A chain of elements with a Text in the last one, which is copied, and queries of both.
const COPY: &[Part] = &[
    Part {
        times: 1,
        pieces: &[Piece::Text("[\"createElement\",0,\"e\"]\n")],
    },
    Part {
        times: 9_999,
        pieces: &[
            Piece::Text("[\"createElement\",0,\"e\"]\n[\"appendChild\","),
            Piece::Number(1, 1),
            Piece::Text(","),
            Piece::Number(2, 1),
            Piece::Text("]\n"),
        ],
    },
    Part {
        times: 1,
        pieces: &[Piece::Text(
            "[\"createText\",0,\"t\"]\n[\"appendChild\",10000,10001]\n[\"cloneNode\",1,true]\n[\"isEqual\",1,10002]\n",
        )],
    },
    Part {
        times: 1,
        pieces: &[Piece::Text(
            "[\"normalize\",1]\n[\"textContent\",10002]\n[\"contains\",1,10001]\n[\"comparePosition\",1,10001]\n",
        )],
    },
];

const COPIED: &[Part] = &[
    Part {
        times: 1,
        pieces: &[Piece::Text("{\"ok\":1}\n")],
    },
    Part {
        times: 9_999,
        pieces: &[
            Piece::Text("{\"ok\":"),
            Piece::Number(2, 1),
            Piece::Text("}\n{\"ok\":"),
            Piece::Number(2, 1),
            Piece::Text("}\n"),
        ],
    },
    Part {
        times: 1,
        pieces: &[Piece::Text(
            "{\"ok\":10001}\n{\"ok\":10001}\n{\"ok\":10002}\n{\"ok\":true}\n{\"ok\":null}\n{\"ok\":\"t\"}\n{\"ok\":true}\n{\"ok\":20}\n",
        )],
    },
];

// A Text in a chain of elements. The contents from inside that Text to behind the chain are cloned and extracted.
const DRAW: &[Part] = &[
    Part {
        times: 1,
        pieces: &[Piece::Text("[\"createElement\",0,\"e\"]\n")],
    },
    Part {
        times: 1_000,
        pieces: &[
            Piece::Text("[\"createElement\",0,\"e\"]\n[\"appendChild\","),
            Piece::Number(1, 1),
            Piece::Text(","),
            Piece::Number(2, 1),
            Piece::Text("]\n"),
        ],
    },
    Part {
        times: 1,
        pieces: &[Piece::Text(
            "[\"createText\",0,\"text\"]\n[\"appendChild\",1001,1002]\n[\"createText\",0,\"end\"]\n[\"appendChild\",1,1003]\n",
        )],
    },
    Part {
        times: 1,
        pieces: &[Piece::Text(
            "[\"createRange\",0]\n[\"setStart\",0,1002,2]\n[\"setEnd\",0,1,1]\n[\"cloneContents\",0]\n[\"textContent\",1004]\n",
        )],
    },
    Part {
        times: 1,
        pieces: &[Piece::Text(
            "[\"extractContents\",0]\n[\"textContent\",3006]\n[\"data\",1002]\n[\"range\",0]\n[\"length\",1]\n",
        )],
    },
];

// Each element of the chain makes a clone and a fragment, and the Text a clone.
const DRAWN: &[Part] = &[
    Part {
        times: 1,
        pieces: &[Piece::Text("{\"ok\":1}\n")],
    },
    Part {
        times: 1_000,
        pieces: &[
            Piece::Text("{\"ok\":"),
            Piece::Number(2, 1),
            Piece::Text("}\n{\"ok\":"),
            Piece::Number(2, 1),
            Piece::Text("}\n"),
        ],
    },
    Part {
        times: 1,
        pieces: &[Piece::Text(
            "{\"ok\":1002}\n{\"ok\":1002}\n{\"ok\":1003}\n{\"ok\":1003}\n{\"ok\":0}\n{\"ok\":null}\n{\"ok\":null}\n",
        )],
    },
    Part {
        times: 1,
        pieces: &[Piece::Text(
            "{\"ok\":1004}\n{\"ok\":\"xt\"}\n{\"ok\":3006}\n{\"ok\":\"xt\"}\n{\"ok\":\"te\"}\n{\"ok\":[1,1,1,1]}\n{\"ok\":2}\n",
        )],
    },
];

// Paragraphs that a range extracts, that are inserted again, and deleted.
const PARAGRAPHS: &[Part] = &[
    Part {
        times: 1,
        pieces: &[Piece::Text("[\"createElement\",0,\"b\"]\n")],
    },
    Part {
        times: 10_000,
        pieces: &[
            Piece::Text("[\"createElement\",0,\"p\"]\n[\"appendChild\",1,"),
            Piece::Number(2, 2),
            Piece::Text("]\n[\"createText\",0,\"t\"]\n[\"appendChild\","),
            Piece::Number(2, 2),
            Piece::Text(","),
            Piece::Number(3, 2),
            Piece::Text("]\n"),
        ],
    },
    Part {
        times: 1,
        pieces: &[Piece::Text(
            "[\"createRange\",0]\n[\"setStart\",0,1,0]\n[\"setEnd\",0,1,10000]\n[\"extractContents\",0]\n[\"length\",1]\n[\"length\",20002]\n",
        )],
    },
    Part {
        times: 1,
        pieces: &[Piece::Text(
            "[\"insertNode\",0,20002]\n[\"length\",1]\n[\"range\",0]\n[\"deleteContents\",0]\n[\"length\",1]\n[\"range\",0]\n",
        )],
    },
];

const PARAGRAPHS_MOVED: &[Part] = &[
    Part {
        times: 1,
        pieces: &[Piece::Text("{\"ok\":1}\n")],
    },
    Part {
        times: 10_000,
        pieces: &[
            Piece::Text("{\"ok\":"),
            Piece::Number(2, 2),
            Piece::Text("}\n{\"ok\":"),
            Piece::Number(2, 2),
            Piece::Text("}\n{\"ok\":"),
            Piece::Number(3, 2),
            Piece::Text("}\n{\"ok\":"),
            Piece::Number(3, 2),
            Piece::Text("}\n"),
        ],
    },
    Part {
        times: 1,
        pieces: &[Piece::Text(
            "{\"ok\":0}\n{\"ok\":null}\n{\"ok\":null}\n{\"ok\":20002}\n{\"ok\":0}\n{\"ok\":10000}\n",
        )],
    },
    Part {
        times: 1,
        pieces: &[Piece::Text(
            "{\"ok\":null}\n{\"ok\":10000}\n{\"ok\":[1,0,1,10000]}\n{\"ok\":null}\n{\"ok\":0}\n{\"ok\":[1,0,1,0]}\n",
        )],
    },
];

#[test]
fn large_trees(rt: HostRuntime) -> Result<(), Fail> {
    for (name, given, due, lines) in [
        ("a chain of elements", CHAIN, CHAIN_PRINTED, 20_001),
        ("a chain copied and compared", COPY, COPIED, 20_007),
        ("a chain cloned and extracted", DRAW, DRAWN, 2_015),
        (
            "paragraphs taken out and put back",
            PARAGRAPHS,
            PARAGRAPHS_MOVED,
            40_013,
        ),
    ] {
        are_answered(&rt, rt.alloc(), name, given, due, lines)?;
    }
    Ok(())
}
