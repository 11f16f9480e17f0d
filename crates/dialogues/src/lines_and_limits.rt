//! Written by tools/rows.py from dialogues/lines_and_limits.

use crate::{Bytes, Dialogue};

pub const BLANK_LINE: Dialogue = Dialogue {
    name: "blank line",
    numbers: 4294967295,
    line: 1048576,
    given: Bytes::Text("\n"),
    due: "{\"error\":\"bad-json\"}\n",
};

pub const BYTES_OF_NO_TEXT: Dialogue = Dialogue {
    name: "bytes of no text",
    numbers: 4294967295,
    line: 1048576,
    given: Bytes::Raw(
        b"[\"createText\",0,\"a\xFF\"]\n[\"createText\",0,\"a\x80\"]\n[\"createText\",0,\"a\xC0\x80\"]\n[\"createText\",0,\"a\xC1\xBF\"]\n[\"createText\",0,\"a\xE0\x9F\xBF\"]\n[\"createText\",0,\"a\xED\xA0\x80\"]\n[\"createText\",0,\"a\xF0\x8F\xBF\xBF\"]\n[\"createText\",0,\"a\xF4\x90\x80\x80\"]\n[\"createText\",0,\"a\xF5\x80\x80\x80\"]\n[\"createText\",0,\"a\xC3\"]\n[\"createText\",0,\"a\xE2\x82\"]\n[\"createText\",0,\"a\xF0\x9F\x98\"]\n[\"createText\",0,\"a\xC3\xC3\"]\n[\"tree\",0]\xFF\n\xC3\xA9\n[\"tr\xFFee\",0]\n[\"observe\",0,0,{\"\xFF\":true}]\n[\"createText\",0,\"a\xC2\x80\"]\n[\"createText\",0,\"a\xED\x9F\xBF\"]\n[\"createText\",0,\"a\xEE\x80\x80\"]\n[\"createText\",0,\"a\xEF\xBF\xBF\"]\n[\"createText\",0,\"a\xF4\x8F\xBF\xBF\"]\n[\"data\",1]\n[\"data\",2]\n[\"data\",3]\n[\"data\",4]\n[\"data\",5]\n[\"length\",5]\n",
    ),
    due: "{\"error\":\"bad-json\"}\n{\"error\":\"bad-json\"}\n{\"error\":\"bad-json\"}\n{\"error\":\"bad-json\"}\n{\"error\":\"bad-json\"}\n{\"error\":\"bad-json\"}\n{\"error\":\"bad-json\"}\n{\"error\":\"bad-json\"}\n{\"error\":\"bad-json\"}\n{\"error\":\"bad-json\"}\n{\"error\":\"bad-json\"}\n{\"error\":\"bad-json\"}\n{\"error\":\"bad-json\"}\n{\"error\":\"bad-json\"}\n{\"error\":\"bad-json\"}\n{\"error\":\"bad-json\"}\n{\"error\":\"bad-json\"}\n{\"ok\":1}\n{\"ok\":2}\n{\"ok\":3}\n{\"ok\":4}\n{\"ok\":5}\n{\"ok\":\"a\u{80}\"}\n{\"ok\":\"a\u{d7ff}\"}\n{\"ok\":\"a\u{e000}\"}\n{\"ok\":\"a\u{ffff}\"}\n{\"ok\":\"a\u{10ffff}\"}\n{\"ok\":3}\n",
};

pub const COPIES_LIMITED: Dialogue = Dialogue {
    name: "copies limited",
    numbers: 20,
    line: 1048576,
    given: Bytes::Text(
        "[\"cloneNode\",0,false]\n[\"cloneNode\",0,false]\n[\"cloneNode\",0,false]\n[\"cloneNode\",0,false]\n[\"cloneNode\",0,false]\n[\"createFragment\",0]\n",
    ),
    due: "{\"ok\":1}\n{\"ok\":2}\n{\"ok\":3}\n{\"ok\":4}\n{\"error\":\"limit\"}\n{\"ok\":5}\n",
};

pub const DEEP_LINES: Dialogue = Dialogue {
    name: "deep lines",
    numbers: 4294967295,
    line: 1048576,
    given: Bytes::Text(
        "[[[[[[[[[[[[[[[[[[[[[[[[[[[[[[[[[[[[[[[[[[[[[[[[[[[[[[[[[[[[[[[[[[[[[[[[[[[[[[[[[[[[[[[[[[[[[[[[[[[[]]]]]]]]]]]]]]]]]]]]]]]]]]]]]]]]]]]]]]]]]]]]]]]]]]]]]]]]]]]]]]]]]]]]]]]]]]]]]]]]]]]]]]]]]]]]]]]]]]]]\n[[[[[[[[[[[[[[[[[[[[[[[[[[[[[[[[[[[[[[[[[[[[[[[[[[[[[[[[[[[[[[[[[[[[[[[[[[[[[[[[[[[[[[[[[[[[[[[[[[[[[[[[[[[[[[[[[[[[[[[[[[[[[[[]]]]]]]]]]]]]]]]]]]]]]]]]]]]]]]]]]]]]]]]]]]]]]]]]]]]]]]]]]]]]]]]]]]]]]]]]]]]]]]]]]]]]]]]]]]]]]]]]]]]]]]]]]]]]]]]]]]]]]]]]]]]]]]\n[[[[[[[[[[[[[[[[[[[[[[[[[[[[[[[[[[[[[[[[[[[[[[[[[[[[[[[[[[[[[[[[[[[[[[[[[[[[[[[[[[[[[[[[[[[[[[[[[[[[[[[[[[[[[[[[[[[[[[[[[[[[[[[[]]]]]]]]]]]]]]]]]]]]]]]]]]]]]]]]]]]]]]]]]]]]]]]]]]]]]]]]]]]]]]]]]]]]]]]]]]]]]]]]]]]]]]]]]]]]]]]]]]]]]]]]]]]]]]]]]]]]]]]]]]]]]]]]\n[[[[[[[[[[[[[[[[[[[[[[[[[[[[[[[[[[[[[[[[[[[[[[[[[[[[[[[[[[[[[[[[[[[[[[[[[[[[[[[[[[[[[[[[[[[[[[[[[[[[[[[[[[[[[[[[[[[[[[[[[[[[[[[\n[[[[[[[[[[[[[[[[[[[[[[[[[[[[[[[[[[[[[[[[[[[[[[[[[[[[[[[[[[[[[[[[[[[[[[[[[[[[[[[[[[[[[[[[[[[[[[[[[[[[[[[[[[[[[[[[[[[[[[[[[[[[[[[[[[[[[[[[[[[[[[[[[[[[[[[[[[[[[[[[[[[[[[[[[[[[[[[[[[[[[[[[[[[[[[[[[[[[[[[[\n[0,[[[[[[[[[[[[[[[[[[[[[[[[[[[[[[[[[[[[[[[[[[[[[[[[[[[[[[[[[[[[[[[[[[[[[[[[[[[[[[[[[[[[[[[[[[[[[[[[[[[[[[[[[[[[[[[[[[[[[[[[[[[[[[]]]]]]]]]]]]]]]]]]]]]]]]]]]]]]]]]]]]]]]]]]]]]]]]]]]]]]]]]]]]]]]]]]]]]]]]]]]]]]]]]]]]]]]]]]]]]]]]]]]]]]]]]]]]]]]]]]]]]]]]]]]]]]]\n[0,[[[[[[[[[[[[[[[[[[[[[[[[[[[[[[[[[[[[[[[[[[[[[[[[[[[[[[[[[[[[[[[[[[[[[[[[[[[[[[[[[[[[[[[[[[[[[[[[[[[[[[[[[[[[[[[[[[[[[[[[[[[[[[[]]]]]]]]]]]]]]]]]]]]]]]]]]]]]]]]]]]]]]]]]]]]]]]]]]]]]]]]]]]]]]]]]]]]]]]]]]]]]]]]]]]]]]]]]]]]]]]]]]]]]]]]]]]]]]]]]]]]]]]]]]]]]]]]\n{\"a\":{\"a\":{\"a\":{\"a\":{\"a\":{\"a\":{\"a\":{\"a\":{\"a\":{\"a\":{\"a\":{\"a\":{\"a\":{\"a\":{\"a\":{\"a\":{\"a\":{\"a\":{\"a\":{\"a\":{\"a\":{\"a\":{\"a\":{\"a\":{\"a\":{\"a\":{\"a\":{\"a\":{\"a\":{\"a\":{\"a\":{\"a\":{\"a\":{\"a\":{\"a\":{\"a\":{\"a\":{\"a\":{\"a\":{\"a\":{\"a\":{\"a\":{\"a\":{\"a\":{\"a\":{\"a\":{\"a\":{\"a\":{\"a\":{\"a\":{\"a\":{\"a\":{\"a\":{\"a\":{\"a\":{\"a\":{\"a\":{\"a\":{\"a\":{\"a\":{\"a\":{\"a\":{\"a\":{\"a\":{\"a\":{\"a\":{\"a\":{\"a\":{\"a\":{\"a\":{\"a\":{\"a\":{\"a\":{\"a\":{\"a\":{\"a\":{\"a\":{\"a\":{\"a\":{\"a\":{\"a\":{\"a\":{\"a\":{\"a\":{\"a\":{\"a\":{\"a\":{\"a\":{\"a\":{\"a\":{\"a\":{\"a\":{\"a\":{\"a\":{\"a\":{\"a\":{\"a\":{\"a\":{\"a\":{\"a\":0}}}}}}}}}}}}}}}}}}}}}}}}}}}}}}}}}}}}}}}}}}}}}}}}}}}}}}}}}}}}}}}}}}}}}}}}}}}}}}}}}}}}}}}}}}}}}}}}}}}}\n{\"a\":{\"a\":{\"a\":{\"a\":{\"a\":{\"a\":{\"a\":{\"a\":{\"a\":{\"a\":{\"a\":{\"a\":{\"a\":{\"a\":{\"a\":{\"a\":{\"a\":{\"a\":{\"a\":{\"a\":{\"a\":{\"a\":{\"a\":{\"a\":{\"a\":{\"a\":{\"a\":{\"a\":{\"a\":{\"a\":{\"a\":{\"a\":{\"a\":{\"a\":{\"a\":{\"a\":{\"a\":{\"a\":{\"a\":{\"a\":{\"a\":{\"a\":{\"a\":{\"a\":{\"a\":{\"a\":{\"a\":{\"a\":{\"a\":{\"a\":{\"a\":{\"a\":{\"a\":{\"a\":{\"a\":{\"a\":{\"a\":{\"a\":{\"a\":{\"a\":{\"a\":{\"a\":{\"a\":{\"a\":{\"a\":{\"a\":{\"a\":{\"a\":{\"a\":{\"a\":{\"a\":{\"a\":{\"a\":{\"a\":{\"a\":{\"a\":{\"a\":{\"a\":{\"a\":{\"a\":{\"a\":{\"a\":{\"a\":{\"a\":{\"a\":{\"a\":{\"a\":{\"a\":{\"a\":{\"a\":{\"a\":{\"a\":{\"a\":{\"a\":{\"a\":{\"a\":{\"a\":{\"a\":{\"a\":{\"a\":{\"a\":{\"a\":{\"a\":{\"a\":{\"a\":{\"a\":{\"a\":{\"a\":{\"a\":{\"a\":{\"a\":{\"a\":{\"a\":{\"a\":{\"a\":{\"a\":{\"a\":{\"a\":{\"a\":{\"a\":{\"a\":{\"a\":{\"a\":{\"a\":{\"a\":{\"a\":{\"a\":{\"a\":0}}}}}}}}}}}}}}}}}}}}}}}}}}}}}}}}}}}}}}}}}}}}}}}}}}}}}}}}}}}}}}}}}}}}}}}}}}}}}}}}}}}}}}}}}}}}}}}}}}}}}}}}}}}}}}}}}}}}}}}}}}}}}}}}\n[\"tree\",[[[[[[[[[[[[[[[[[[[[[[[[[[[[[[[[[[[[[[[[[[[[[[[[[[[[[[[[[[[[[[[[[[[[[[[[[[[[[[[[[[[[[[[[[[[[[[[[[[[[[[[[[[[[[[[[[[[[[[[[[[[[[[]]]]]]]]]]]]]]]]]]]]]]]]]]]]]]]]]]]]]]]]]]]]]]]]]]]]]]]]]]]]]]]]]]]]]]]]]]]]]]]]]]]]]]]]]]]]]]]]]]]]]]]]]]]]]]]]]]]]]]]]]]]]]]]\n[\"createText\",0,[[[[[[[[[[[[[[[[[[[[[[[[[[[[[[[[[[[[[[[[[[[[[[[[[[[[[[[[[[[[[[[[[[[[[[[[[[[[[[[[[[[[[[[[[[[[[[[[[[[[]]]]]]]]]]]]]]]]]]]]]]]]]]]]]]]]]]]]]]]]]]]]]]]]]]]]]]]]]]]]]]]]]]]]]]]]]]]]]]]]]]]]]]]]]]]]]]]]]]]]]\n[\"createText\",0,[[[[[[[[[[[[[[[[[[[[[[[[[[[[[[[[[[[[[[[[[[[[[[[[[[[[[[[[[[[[[[[[[[[[[[[[[[[[[[[[[[[[[[[[[[[[[[[[[[[[[[[[[[[[[[[[[[[[[[[[[[[[[[[]]]]]]]]]]]]]]]]]]]]]]]]]]]]]]]]]]]]]]]]]]]]]]]]]]]]]]]]]]]]]]]]]]]]]]]]]]]]]]]]]]]]]]]]]]]]]]]]]]]]]]]]]]]]]]]]]]]]]]]]]]]]]]]]\n[\"createObserver\"]\n[\"observe\",0,0,{\"childList\":true,\"other\":[[[[[[[[[[[[[[[[[[[[[[[[[[[[[[[[[[[[[[[[[[[[[[[[[[[[[[[[[[[[[[[[[[[[[[[[[[[[[[[[[[[[[[[[[[[[[[[[[[[[]]]]]]]]]]]]]]]]]]]]]]]]]]]]]]]]]]]]]]]]]]]]]]]]]]]]]]]]]]]]]]]]]]]]]]]]]]]]]]]]]]]]]]]]]]]]]]]]]]]]}]\n[\"observe\",0,0,{\"childList\":true,\"other\":[[[[[[[[[[[[[[[[[[[[[[[[[[[[[[[[[[[[[[[[[[[[[[[[[[[[[[[[[[[[[[[[[[[[[[[[[[[[[[[[[[[[[[[[[[[[[[[[[[[[[[[[[[[[[[[[[[[[[[[[[[[[[[]]]]]]]]]]]]]]]]]]]]]]]]]]]]]]]]]]]]]]]]]]]]]]]]]]]]]]]]]]]]]]]]]]]]]]]]]]]]]]]]]]]]]]]]]]]]]]]]]]]]]]]]]]]]]]]]]]]]]]]]]]]]]]}]\n[\"createText\",0,\"t\"]\n",
    ),
    due: "{\"error\":\"bad-command\"}\n{\"error\":\"bad-command\"}\n{\"error\":\"bad-json\"}\n{\"error\":\"bad-json\"}\n{\"error\":\"bad-json\"}\n{\"error\":\"bad-command\"}\n{\"error\":\"bad-json\"}\n{\"error\":\"bad-command\"}\n{\"error\":\"bad-json\"}\n{\"error\":\"bad-arguments\"}\n{\"error\":\"bad-arguments\"}\n{\"error\":\"bad-json\"}\n{\"ok\":0}\n{\"ok\":null}\n{\"error\":\"bad-json\"}\n{\"ok\":1}\n",
};

pub const HOSTILE_LINES: Dialogue = Dialogue {
    name: "hostile lines",
    numbers: 4294967295,
    line: 1048576,
    given: Bytes::Raw(
        b"[]\n[[\"tree\",0]]\n[\"tree\",0,0]\n[[[[[[[[[[[[[[[[[[[[[[[[[[[[[[[[[[[[[[[[[[[[[[[[[[[[[[[[[[[[[[[[[[[[[[[[[[[[[[[[[[[[[[[[[[[[[[[[[[[[[[[[[[[[[[[[[[[[[[[[[[[[[[[[[[[[[[[[[[[[[[[[[[[[[[[[[[[[[[[[[[[[[[[[[[[[[[[[[[[[[[[[[[[[[[[[[[[[[[[[]]]]]]]]]]]]]]]]]]]]]]]]]]]]]]]]]]]]]]]]]]]]]]]]]]]]]]]]]]]]]]]]]]]]]]]]]]]]]]]]]]]]]]]]]]]]]]]]]]]]]]]]]]]]]]]]]]]]]]]]]]]]]]]]]]]]]]]]]]]]]]]]]]]]]]]]]]]]]]]]]]]]]]]]]]]]]]]]]]]]]]]]]]]]]]]]]]]]]]]]\n[[[[[[[[[[[[[[[[[[[[[[[[[[[[[[[[[[[[[[[[[[[[[[[[[[[[[[[[[[[[[[[[[[[[[[[[[[[[[[[[[[[[[[[[[[[[[[[[[[[[]]]]]]]]]]]]]]]]]]]]]]]]]]]]]]]]]]]]]]]]]]]]]]]]]]]]]]]]]]]]]]]]]]]]]]]]]]]]]]]]]]]]]]]]]]]]]]]]]]]]\n\xFF\n[\"createText\",0,[97,65536]]\n[\"createText\",0,[55296]]\n[\"data\",1]\n[\"setAttribute\",1,\"a b\",\"\"]\n[\"compareBoundaryPoints\",0,9,9]\n",
    ),
    due: "{\"error\":\"bad-command\"}\n{\"error\":\"bad-command\"}\n{\"error\":\"bad-arguments\"}\n{\"error\":\"bad-json\"}\n{\"error\":\"bad-command\"}\n{\"error\":\"bad-json\"}\n{\"error\":\"bad-arguments\"}\n{\"ok\":1}\n{\"ok\":[55296]}\n{\"error\":\"TypeError\"}\n{\"error\":\"no-such-object\"}\n",
};

pub const LINES_AT_THE_LIMIT: Dialogue = Dialogue {
    name: "lines at the limit",
    numbers: 4294967295,
    line: 11,
    given: Bytes::Text(
        "[\"tree\",0]\u{d}\n[\"tree\",0]\u{d} \n[\"tree\", 0]\n[\"tree\",  0]\n           \n            \n                              \n[\"tree\",00]\n\n [\"tree\",0]",
    ),
    due: "{\"ok\":[[0,0,9,\"#document\"]]}\n{\"error\":\"line-too-long\"}\n{\"ok\":[[0,0,9,\"#document\"]]}\n{\"error\":\"line-too-long\"}\n{\"error\":\"bad-json\"}\n{\"error\":\"line-too-long\"}\n{\"error\":\"line-too-long\"}\n{\"error\":\"bad-json\"}\n{\"error\":\"bad-json\"}\n{\"ok\":[[0,0,9,\"#document\"]]}\n",
};

pub const LINES_LIMITED: Dialogue = Dialogue {
    name: "lines limited",
    numbers: 4294967295,
    line: 10,
    given: Bytes::Text("[\"tree\",0]\n[\"tree\",0] \n[\"tree\",0]\n"),
    due: "{\"ok\":[[0,0,9,\"#document\"]]}\n{\"error\":\"line-too-long\"}\n{\"ok\":[[0,0,9,\"#document\"]]}\n",
};

pub const LINES_OF_NO_COMMAND: Dialogue = Dialogue {
    name: "lines of no command",
    numbers: 4294967295,
    line: 1048576,
    given: Bytes::Text(
        "5\n-1.5e3\n\"tree\"\ntrue\n{\"tree\":0}\n[null]\n[5]\n[true,0]\n[{}]\n[[],0]\n[\"\"]\n[\"tree \",0]\n[\"trees\",0]\n[\"tre\",0]\n[\"tree\\u0000\",0]\n[\"\\u0074r\\u0065e\",0]\n [ \"tree\"\u{9}, 0 ] \u{d}\n[\n]\n[\"tree\",0]]\n[\"tree\" 0]\n[\"tree\",,0]\n['tree',0]\n[\"tree,0]\n[,]\nnul\ntru\n[\"tree\",NaN]\n[\"tree\",0]//\n\u{feff}[\"tree\",0]\n\u{a0}[\"tree\",0]\n\u{c}[\"tree\",0]\n\u{b}[\"tree\",0]\n[\"tr\\ee\",0]\n[\"tr\u{9}ee\",0]\n[\"tree\",0]\u{0}\n\u{0}\n{\"a\":1\n{\"a\"}\n{a:1}\n{\"a\":1,}\n[\"newDocument\",\"x\"]\n[\"notify\",null]\n[\"createText\",0]\n[\"createText\"]\n[\"insertBefore\",0,1]\n[\"insertBefore\",0,1,null,null]\n[\"createPI\",0,\"t\"]\n[\"toggleAttribute\",0,\"a\"]\n[\"replaceData\",0,0,0]\n[\"compareBoundaryPoints\",0,0]\n[\"createWalker\",0,4294967295]\n[\"tree\",0,null]\n[\"tree\",0]\n",
    ),
    due: "{\"error\":\"bad-command\"}\n{\"error\":\"bad-command\"}\n{\"error\":\"bad-command\"}\n{\"error\":\"bad-command\"}\n{\"error\":\"bad-command\"}\n{\"error\":\"bad-command\"}\n{\"error\":\"bad-command\"}\n{\"error\":\"bad-command\"}\n{\"error\":\"bad-command\"}\n{\"error\":\"bad-command\"}\n{\"error\":\"bad-command\"}\n{\"error\":\"bad-command\"}\n{\"error\":\"bad-command\"}\n{\"error\":\"bad-command\"}\n{\"error\":\"bad-command\"}\n{\"ok\":[[0,0,9,\"#document\"]]}\n{\"ok\":[[0,0,9,\"#document\"]]}\n{\"error\":\"bad-json\"}\n{\"error\":\"bad-json\"}\n{\"error\":\"bad-json\"}\n{\"error\":\"bad-json\"}\n{\"error\":\"bad-json\"}\n{\"error\":\"bad-json\"}\n{\"error\":\"bad-json\"}\n{\"error\":\"bad-json\"}\n{\"error\":\"bad-json\"}\n{\"error\":\"bad-json\"}\n{\"error\":\"bad-json\"}\n{\"error\":\"bad-json\"}\n{\"error\":\"bad-json\"}\n{\"error\":\"bad-json\"}\n{\"error\":\"bad-json\"}\n{\"error\":\"bad-json\"}\n{\"error\":\"bad-json\"}\n{\"error\":\"bad-json\"}\n{\"error\":\"bad-json\"}\n{\"error\":\"bad-json\"}\n{\"error\":\"bad-json\"}\n{\"error\":\"bad-json\"}\n{\"error\":\"bad-json\"}\n{\"error\":\"bad-json\"}\n{\"error\":\"bad-arguments\"}\n{\"error\":\"bad-arguments\"}\n{\"error\":\"bad-arguments\"}\n{\"error\":\"bad-arguments\"}\n{\"error\":\"bad-arguments\"}\n{\"error\":\"bad-arguments\"}\n{\"error\":\"bad-arguments\"}\n{\"error\":\"bad-arguments\"}\n{\"error\":\"bad-arguments\"}\n{\"error\":\"bad-arguments\"}\n{\"error\":\"bad-arguments\"}\n{\"error\":\"bad-arguments\"}\n{\"ok\":[[0,0,9,\"#document\"]]}\n",
};

pub const MALFORMED_LINES: Dialogue = Dialogue {
    name: "malformed lines",
    numbers: 4294967295,
    line: 1048576,
    given: Bytes::Text(
        "[\"data\",0,]\n{}\n[\"nosuch\"]\n[\"tree\"]\n[\"tree\",-1]\n[\"tree\",4294967296]\n[\"createElement\",7,5]\n[\"tree\",7]\n[\"data\",0]\n[\"createElement\",0,\"\"]\n",
    ),
    due: "{\"error\":\"bad-json\"}\n{\"error\":\"bad-command\"}\n{\"error\":\"bad-command\"}\n{\"error\":\"bad-arguments\"}\n{\"error\":\"bad-arguments\"}\n{\"error\":\"bad-arguments\"}\n{\"error\":\"bad-arguments\"}\n{\"error\":\"no-such-object\"}\n{\"error\":\"TypeError\"}\n{\"error\":\"InvalidCharacterError\"}\n",
};

pub const NO_INPUT: Dialogue = Dialogue {
    name: "no input",
    numbers: 4294967295,
    line: 1048576,
    given: Bytes::Text(""),
    due: "",
};

pub const NODES_LIMITED: Dialogue = Dialogue {
    name: "nodes limited",
    numbers: 4,
    line: 1048576,
    given: Bytes::Text(
        "[\"createText\",0,\"a\"]\n[\"createText\",0,\"a\"]\n[\"createText\",0,\"a\"]\n[\"createText\",0,\"a\"]\n[\"createElement\",0,\"\"]\n[\"newDocument\"]\n[\"createText\",1,\"a\"]\n[\"tree\",3]\n",
    ),
    due: "{\"ok\":1}\n{\"ok\":2}\n{\"ok\":3}\n{\"error\":\"limit\"}\n{\"error\":\"limit\"}\n{\"error\":\"limit\"}\n{\"error\":\"TypeError\"}\n{\"ok\":[[0,3,3,\"#text\",\"a\"]]}\n",
};

pub const NUMBERS_LIMITED: Dialogue = Dialogue {
    name: "numbers limited",
    numbers: 4,
    line: 1048576,
    given: Bytes::Text(
        "[\"createText\",0,\"a\"]\n[\"createText\",0,\"a\"]\n[\"createText\",0,\"a\"]\n[\"createText\",0,\"a\"]\n[\"createElement\",0,\"\"]\n[\"createRange\",0]\n",
    ),
    due: "{\"ok\":1}\n{\"ok\":2}\n{\"ok\":3}\n{\"error\":\"limit\"}\n{\"error\":\"limit\"}\n{\"ok\":0}\n",
};

pub const NUMBERS_WRITTEN_OTHERWISE: Dialogue = Dialogue {
    name: "numbers written otherwise",
    numbers: 4294967295,
    line: 1048576,
    given: Bytes::Text(
        "[\"createText\",0,\"ab\"]\n[\"index\",0]\n[\"index\",1]\n[\"index\",0.0]\n[\"index\",1.0]\n[\"index\",-0]\n[\"index\",-0.0]\n[\"index\",0e0]\n[\"index\",1e0]\n[\"index\",1e2]\n[\"index\",1E2]\n[\"index\",1e-400]\n[\"index\",4294967296]\n[\"index\",18446744073709551615]\n[\"index\",18446744073709551616]\n[\"index\",-1]\n[\"index\",-9223372036854775809]\n[\"index\",\"0\"]\n[\"index\",null]\n[\"index\",true]\n[\"index\",[0]]\n[\"index\",{}]\n[\"index\",00]\n[\"index\",01]\n[\"index\",-01]\n[\"index\",+0]\n[\"index\",.0]\n[\"index\",0.]\n[\"index\",1e]\n[\"index\",1e+]\n[\"index\",0x0]\n[\"index\",1e400]\n[\"index\",-]\n[\"index\",1_0]\n[\"index\",Infinity]\n[\"index\",]\n[\"index\",2]\n[\"index\",4294967295]\n[\"substringData\",1,0,4294967295]\n[\"substringData\",1,4294967295,0]\n[\"substringData\",1,0,4294967296]\n[\"substringData\",1,0,1.0]\n[\"substringData\",1,-0,1]\n[\"substringData\",1,1,1]\n[\"createRange\",0]\n[\"setStart\",0,1,1e0]\n[\"setStart\",0,1,4294967295]\n[\"compareBoundaryPoints\",0,4294967295,0]\n[\"compareBoundaryPoints\",0,4294967296,0]\n[\"compareBoundaryPoints\",0,3.0,0]\n[\"createIterator\",0,4294967295,[]]\n[\"createIterator\",0,4294967296,[]]\n[\"createIterator\",0,-1,[]]\n[\"range\",0]\n",
    ),
    due: "{\"ok\":1}\n{\"ok\":0}\n{\"ok\":0}\n{\"error\":\"bad-arguments\"}\n{\"error\":\"bad-arguments\"}\n{\"error\":\"bad-arguments\"}\n{\"error\":\"bad-arguments\"}\n{\"error\":\"bad-arguments\"}\n{\"error\":\"bad-arguments\"}\n{\"error\":\"bad-arguments\"}\n{\"error\":\"bad-arguments\"}\n{\"error\":\"bad-arguments\"}\n{\"error\":\"bad-arguments\"}\n{\"error\":\"bad-arguments\"}\n{\"error\":\"bad-arguments\"}\n{\"error\":\"bad-arguments\"}\n{\"error\":\"bad-arguments\"}\n{\"error\":\"bad-arguments\"}\n{\"error\":\"bad-arguments\"}\n{\"error\":\"bad-arguments\"}\n{\"error\":\"bad-arguments\"}\n{\"error\":\"bad-arguments\"}\n{\"error\":\"bad-json\"}\n{\"error\":\"bad-json\"}\n{\"error\":\"bad-json\"}\n{\"error\":\"bad-json\"}\n{\"error\":\"bad-json\"}\n{\"error\":\"bad-json\"}\n{\"error\":\"bad-json\"}\n{\"error\":\"bad-json\"}\n{\"error\":\"bad-json\"}\n{\"error\":\"bad-json\"}\n{\"error\":\"bad-json\"}\n{\"error\":\"bad-json\"}\n{\"error\":\"bad-json\"}\n{\"error\":\"bad-json\"}\n{\"error\":\"no-such-object\"}\n{\"error\":\"no-such-object\"}\n{\"ok\":\"ab\"}\n{\"error\":\"IndexSizeError\"}\n{\"error\":\"bad-arguments\"}\n{\"error\":\"bad-arguments\"}\n{\"error\":\"bad-arguments\"}\n{\"ok\":\"b\"}\n{\"ok\":0}\n{\"error\":\"bad-arguments\"}\n{\"error\":\"IndexSizeError\"}\n{\"error\":\"NotSupportedError\"}\n{\"error\":\"bad-arguments\"}\n{\"error\":\"bad-arguments\"}\n{\"ok\":0}\n{\"error\":\"bad-arguments\"}\n{\"error\":\"bad-arguments\"}\n{\"ok\":[0,0,0,0]}\n",
};

pub const ONE_BYTE_LINES: Dialogue = Dialogue {
    name: "one byte lines",
    numbers: 4294967295,
    line: 1,
    given: Bytes::Text("\n[\n[]\n5\n55\n\u{d}\n[\"tree\",0]\n\né\n0\n[]"),
    due: "{\"error\":\"bad-json\"}\n{\"error\":\"bad-json\"}\n{\"error\":\"line-too-long\"}\n{\"error\":\"bad-command\"}\n{\"error\":\"line-too-long\"}\n{\"error\":\"bad-json\"}\n{\"error\":\"line-too-long\"}\n{\"error\":\"bad-json\"}\n{\"error\":\"line-too-long\"}\n{\"error\":\"bad-command\"}\n{\"error\":\"line-too-long\"}\n",
};

pub const REFUSALS_SPEND_NOTHING: Dialogue = Dialogue {
    name: "refusals spend nothing",
    numbers: 4294967295,
    line: 1048576,
    given: Bytes::Text(
        "[\"createElement\",0,\"a\"]\n[\"createElement\",0,\"b\"]\n[\"createText\",0,\"t\"]\n[\"appendChild\",1,2]\n[\"appendChild\",2,1]\n[\"appendChild\",0,3]\n[\"appendChild\",2,3]\n[\"appendChild\",1,3]\n[\"tree\",1]\n[\"newDocument\"]\n[\"appendChild\",0,4]\n[\"createElement\",0,\"1a\"]\n[\"newDocument\"]\n",
    ),
    due: "{\"ok\":1}\n{\"ok\":2}\n{\"ok\":3}\n{\"ok\":2}\n{\"error\":\"HierarchyRequestError\"}\n{\"error\":\"HierarchyRequestError\"}\n{\"ok\":3}\n{\"ok\":3}\n{\"ok\":[[0,1,1,\"a\",[]],[1,2,1,\"b\",[]],[1,3,3,\"#text\",\"t\"]]}\n{\"ok\":4}\n{\"error\":\"HierarchyRequestError\"}\n{\"error\":\"InvalidCharacterError\"}\n{\"ok\":5}\n",
};

pub const REFUSED_LINES: Dialogue = Dialogue {
    name: "refused lines",
    numbers: 4294967295,
    line: 40,
    given: Bytes::Raw(
        b"[\"createText\",0,\"t\"]\n\n[\"createText\",0,\"t\"]\n \x09 \n[\"createText\",0,\"t\"]\ntree\n[\"createText\",0,\"t\"]\n[\"tree\",0,]\n[\"createText\",0,\"t\"]\n[\"tree\",0\n[\"createText\",0,\"t\"]\n[\"tree\",0][\"tree\",0]\n[\"createText\",0,\"t\"]\n\xFF\n[\"createText\",0,\"t\"]\n[\"createText\",0,\"\xFF\"]\n[\"createText\",0,\"t\"]\n{}\n[\"createText\",0,\"t\"]\nnull\n[\"createText\",0,\"t\"]\n[]\n[\"createText\",0,\"t\"]\n[[\"tree\",0]]\n[\"createText\",0,\"t\"]\n[\"nosuch\"]\n[\"createText\",0,\"t\"]\n[\"Tree\",0]\n[\"createText\",0,\"t\"]\n[\"tree\"]\n[\"createText\",0,\"t\"]\n[\"tree\",-1]\n[\"createText\",0,\"t\"]\n[\"tree\",0.0]\n[\"createText\",0,\"t\"]\n[\"tree\",4294967296]\n[\"createText\",0,\"t\"]\n[\"tree\",0,0]\n[\"createText\",0,\"t\"]\n[\"newDocument\",0]\n[\"createText\",0,\"t\"]\n[\"createElement\",9,5]\n[\"createText\",0,\"t\"]\n[\"createText\",0,[97,65536]]\n[\"createText\",0,\"t\"]\n[\"tree\",4294967295]\n[\"createText\",0,\"t\"]\n[\"appendChild\",0,9999]\n[\"createText\",0,\"t\"]\n[\"createElement\",9999,\"1a\"]\n[\"createText\",0,\"t\"]\n[\"createElement\",1,\"1a\"]\n[\"createText\",0,\"t\"]\n[\"createText\",1,\"t\"]\n[\"createText\",0,\"t\"]\n[\"createElement\",0,\"1a\"]\n[\"createText\",0,\"t\"]\n[\"createElement\",0,\"\"]\n[\"createText\",0,\"t\"]\n[\"appendChild\",0,1]\n[\"createText\",0,\"t\"]\n[\"createText\",0,\"0123456789012345678901\"]\n[\"createText\",0,\"t\"]\n[\"tree\",0]",
    ),
    due: "{\"ok\":1}\n{\"error\":\"bad-json\"}\n{\"ok\":2}\n{\"error\":\"bad-json\"}\n{\"ok\":3}\n{\"error\":\"bad-json\"}\n{\"ok\":4}\n{\"error\":\"bad-json\"}\n{\"ok\":5}\n{\"error\":\"bad-json\"}\n{\"ok\":6}\n{\"error\":\"bad-json\"}\n{\"ok\":7}\n{\"error\":\"bad-json\"}\n{\"ok\":8}\n{\"error\":\"bad-json\"}\n{\"ok\":9}\n{\"error\":\"bad-command\"}\n{\"ok\":10}\n{\"error\":\"bad-command\"}\n{\"ok\":11}\n{\"error\":\"bad-command\"}\n{\"ok\":12}\n{\"error\":\"bad-command\"}\n{\"ok\":13}\n{\"error\":\"bad-command\"}\n{\"ok\":14}\n{\"error\":\"bad-command\"}\n{\"ok\":15}\n{\"error\":\"bad-arguments\"}\n{\"ok\":16}\n{\"error\":\"bad-arguments\"}\n{\"ok\":17}\n{\"error\":\"bad-arguments\"}\n{\"ok\":18}\n{\"error\":\"bad-arguments\"}\n{\"ok\":19}\n{\"error\":\"bad-arguments\"}\n{\"ok\":20}\n{\"error\":\"bad-arguments\"}\n{\"ok\":21}\n{\"error\":\"bad-arguments\"}\n{\"ok\":22}\n{\"error\":\"bad-arguments\"}\n{\"ok\":23}\n{\"error\":\"no-such-object\"}\n{\"ok\":24}\n{\"error\":\"no-such-object\"}\n{\"ok\":25}\n{\"error\":\"no-such-object\"}\n{\"ok\":26}\n{\"error\":\"TypeError\"}\n{\"ok\":27}\n{\"error\":\"TypeError\"}\n{\"ok\":28}\n{\"error\":\"InvalidCharacterError\"}\n{\"ok\":29}\n{\"error\":\"InvalidCharacterError\"}\n{\"ok\":30}\n{\"error\":\"HierarchyRequestError\"}\n{\"ok\":31}\n{\"error\":\"line-too-long\"}\n{\"ok\":32}\n{\"ok\":[[0,0,9,\"#document\"]]}\n",
};

pub const ROOM_AFTER_DISCARDING: Dialogue = Dialogue {
    name: "room after discarding",
    numbers: 13,
    line: 1048576,
    given: Bytes::Text(
        "[\"createText\",0,\"a\"]\n[\"cloneNode\",0,false]\n[\"discard\",1]\n[\"cloneNode\",0,false]\n",
    ),
    due: "{\"ok\":1}\n{\"error\":\"limit\"}\n{\"ok\":null}\n{\"ok\":2}\n",
};

pub const THREE_BLANK_LINES: Dialogue = Dialogue {
    name: "three blank lines",
    numbers: 4294967295,
    line: 1048576,
    given: Bytes::Text("\n\n\n"),
    due: "{\"error\":\"bad-json\"}\n{\"error\":\"bad-json\"}\n{\"error\":\"bad-json\"}\n",
};

pub const TWO_BLANK_LINES: Dialogue = Dialogue {
    name: "two blank lines",
    numbers: 4294967295,
    line: 1048576,
    given: Bytes::Text("\n\n"),
    due: "{\"error\":\"bad-json\"}\n{\"error\":\"bad-json\"}\n",
};

pub const UNITS_AND_SURROGATES: Dialogue = Dialogue {
    name: "units and surrogates",
    numbers: 4294967295,
    line: 1048576,
    given: Bytes::Text(
        "[\"createText\",0,[55357,56832]]\n[\"data\",1]\n[\"createText\",0,[56832,55357]]\n[\"data\",2]\n[\"createText\",0,[65535,0]]\n[\"data\",3]\n[\"createText\",0,[]]\n[\"data\",4]\n[\"createText\",0,\"\\uD83D\\ude00\"]\n[\"length\",5]\n[\"data\",5]\n[\"createText\",0,\"\\ud800\"]\n[\"createText\",0,\"\\udc00\"]\n[\"createText\",0,\"\\ud800\\u0041\"]\n[\"createText\",0,\"\\ud800x\"]\n[\"createText\",0,\"\\ud800\\ud800\"]\n[\"createText\",0,\"\\u12\"]\n[\"createText\",0,[65536]]\n[\"createText\",0,[97,65536]]\n[\"createText\",0,[4294967296]]\n[\"createText\",0,[-1]]\n[\"createText\",0,[97.0]]\n[\"createText\",0,[\"a\"]]\n[\"createText\",0,[[97]]]\n[\"createText\",0,[null]]\n[\"createText\",0,[true]]\n[\"createText\",0,null]\n[\"createText\",0,{\"0\":97}]\n[\"appendData\",1,[55357]]\n[\"data\",1]\n[\"appendData\",1,[56832]]\n[\"data\",1]\n[\"substringData\",1,1,2]\n[\"substringData\",1,2,2]\n[\"createObserver\"]\n[\"observe\",0,1,{\"characterDataOldValue\":true}]\n[\"replaceData\",1,1,2,\"x\"]\n[\"setData\",1,\"\"]\n[\"takeRecords\",0]\n[\"createElement\",0,\"e\"]\n[\"setAttribute\",6,\"a\",[55296]]\n[\"getAttribute\",6,\"a\"]\n[\"tree\",6]\n[\"setAttribute\",6,[97],\"v\"]\n[\"createElement\",0,[101]]\n[\"createText\",0,[55357]]\n[\"createText\",0,[56832]]\n[\"appendChild\",6,7]\n[\"appendChild\",6,8]\n[\"textContent\",6]\n[\"tree\",6]\n[\"createComment\",0,\"\\b\\f\\n\\r\\t\\\"\\\\\\/\\u0001\\u001f\\u007f\\u2028\"]\n[\"data\",9]\n[\"length\",9]\n",
    ),
    due: "{\"ok\":1}\n{\"ok\":\"😀\"}\n{\"ok\":2}\n{\"ok\":[56832,55357]}\n{\"ok\":3}\n{\"ok\":\"\u{ffff}\\u0000\"}\n{\"ok\":4}\n{\"ok\":\"\"}\n{\"ok\":5}\n{\"ok\":2}\n{\"ok\":\"😀\"}\n{\"error\":\"bad-json\"}\n{\"error\":\"bad-json\"}\n{\"error\":\"bad-json\"}\n{\"error\":\"bad-json\"}\n{\"error\":\"bad-json\"}\n{\"error\":\"bad-json\"}\n{\"error\":\"bad-arguments\"}\n{\"error\":\"bad-arguments\"}\n{\"error\":\"bad-arguments\"}\n{\"error\":\"bad-arguments\"}\n{\"error\":\"bad-arguments\"}\n{\"error\":\"bad-arguments\"}\n{\"error\":\"bad-arguments\"}\n{\"error\":\"bad-arguments\"}\n{\"error\":\"bad-arguments\"}\n{\"error\":\"bad-arguments\"}\n{\"error\":\"bad-arguments\"}\n{\"ok\":null}\n{\"ok\":[55357,56832,55357]}\n{\"ok\":null}\n{\"ok\":\"😀😀\"}\n{\"ok\":[56832,55357]}\n{\"ok\":\"😀\"}\n{\"ok\":0}\n{\"ok\":null}\n{\"ok\":null}\n{\"ok\":null}\n{\"ok\":[[\"characterData\",1,[],[],null,null,null,\"😀😀\"],[\"characterData\",1,[],[],null,null,null,[55357,120,56832]]]}\n{\"ok\":6}\n{\"ok\":null}\n{\"ok\":[55296]}\n{\"ok\":[[0,6,1,\"e\",[[\"a\",[55296]]]]]}\n{\"error\":\"bad-arguments\"}\n{\"error\":\"bad-arguments\"}\n{\"ok\":7}\n{\"ok\":8}\n{\"ok\":7}\n{\"ok\":8}\n{\"ok\":\"😀\"}\n{\"ok\":[[0,6,1,\"e\",[[\"a\",[55296]]]],[1,7,3,\"#text\",[55357]],[1,8,3,\"#text\",[56832]]]}\n{\"ok\":9}\n{\"ok\":\"\\b\\f\\n\\r\\t\\\"\\\\/\\u0001\\u001f\u{7f}\u{2028}\"}\n{\"ok\":12}\n",
};

pub const WATCHERS_LIMITED: Dialogue = Dialogue {
    name: "watchers limited",
    numbers: 2,
    line: 1048576,
    given: Bytes::Text(
        "[\"createElement\",0,\"p\"]\n[\"createElement\",0,\"p\"]\n[\"createIterator\",0,4294967295,[]]\n[\"createIterator\",1,4294967295,[]]\n[\"createIterator\",2,4294967295,[]]\n[\"createIterator\",1,4294967295,[]]\n[\"nextNode\",2]\n[\"previousNode\",2]\n[\"iterator\",2]\n[\"createWalker\",0,4294967295,[]]\n[\"createWalker\",1,4294967295,[]]\n[\"createWalker\",2,4294967295,[]]\n[\"createWalker\",1,4294967295,[]]\n[\"walk\",2,\"nextNode\"]\n[\"walker\",2]\n[\"setCurrent\",2,1]\n[\"setCurrent\",1,2]\n[\"walker\",1]\n[\"createObserver\"]\n[\"createObserver\"]\n[\"createObserver\"]\n[\"takeRecords\",2]\n[\"disconnect\",2]\n[\"observe\",2,1,{\"childList\":true}]\n[\"createRange\",0]\n",
    ),
    due: "{\"ok\":1}\n{\"error\":\"limit\"}\n{\"ok\":0}\n{\"ok\":1}\n{\"error\":\"no-such-object\"}\n{\"error\":\"limit\"}\n{\"error\":\"no-such-object\"}\n{\"error\":\"no-such-object\"}\n{\"error\":\"no-such-object\"}\n{\"ok\":0}\n{\"ok\":1}\n{\"error\":\"no-such-object\"}\n{\"error\":\"limit\"}\n{\"error\":\"no-such-object\"}\n{\"error\":\"no-such-object\"}\n{\"error\":\"no-such-object\"}\n{\"error\":\"no-such-object\"}\n{\"ok\":[1,1]}\n{\"ok\":0}\n{\"ok\":1}\n{\"error\":\"limit\"}\n{\"error\":\"no-such-object\"}\n{\"error\":\"no-such-object\"}\n{\"error\":\"no-such-object\"}\n{\"ok\":0}\n",
};
