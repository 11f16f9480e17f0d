//! Written by tools/rows.py from dialogues/trees_and_data.

use crate::{Bytes, Dialogue};

pub const ATTRIBUTES_IN_ORDER: Dialogue = Dialogue {
    name: "attributes in order",
    numbers: 4294967295,
    line: 1048576,
    given: Bytes::Text(
        "[\"createElement\",0,\"e\"]\n[\"toggleAttribute\",1,\"k\",null]\n[\"setAttribute\",1,\"a\",\"1\"]\n[\"setAttribute\",1,\"k\",\"2\"]\n[\"tree\",1]\n[\"toggleAttribute\",1,\"k\",false]\n[\"attributeNames\",1]\n[\"setAttribute\",1,\"a b\",\"\"]\n[\"createPI\",0,\"t\",\"?>\"]\n[\"createElement\",0,\"1a\"]\n",
    ),
    due: "{\"ok\":1}\n{\"ok\":true}\n{\"ok\":null}\n{\"ok\":null}\n{\"ok\":[[0,1,1,\"e\",[[\"k\",\"2\"],[\"a\",\"1\"]]]]}\n{\"ok\":false}\n{\"ok\":[\"a\"]}\n{\"error\":\"InvalidCharacterError\"}\n{\"error\":\"InvalidCharacterError\"}\n{\"error\":\"InvalidCharacterError\"}\n",
};

pub const CHILDREN_OF_A_DOCUMENT: Dialogue = Dialogue {
    name: "children of a document",
    numbers: 4294967295,
    line: 1048576,
    given: Bytes::Text(
        "[\"createElement\",0,\"r\"]\n[\"createDoctype\",0,\"html\",\"\",\"\"]\n[\"createText\",0,\"x\"]\n[\"createElement\",0,\"s\"]\n[\"createFragment\",0]\n[\"createComment\",0,\"c\"]\n[\"createElement\",0,\"u\"]\n[\"appendChild\",0,1]\n[\"appendChild\",0,4]\n[\"appendChild\",0,3]\n[\"appendChild\",0,2]\n[\"insertBefore\",0,2,1]\n[\"insertBefore\",0,4,2]\n[\"appendChild\",0,6]\n[\"appendChild\",5,4]\n[\"appendChild\",5,7]\n[\"replaceChild\",0,5,1]\n[\"children\",0]\n[\"removeChild\",0,1]\n[\"insertBefore\",0,1,2]\n[\"insertBefore\",0,6,2]\n[\"insertBefore\",0,1,6]\n[\"appendChild\",0,1]\n[\"children\",0]\n",
    ),
    due: "{\"ok\":1}\n{\"ok\":2}\n{\"ok\":3}\n{\"ok\":4}\n{\"ok\":5}\n{\"ok\":6}\n{\"ok\":7}\n{\"ok\":1}\n{\"error\":\"HierarchyRequestError\"}\n{\"error\":\"HierarchyRequestError\"}\n{\"error\":\"HierarchyRequestError\"}\n{\"ok\":2}\n{\"error\":\"HierarchyRequestError\"}\n{\"ok\":6}\n{\"ok\":4}\n{\"ok\":7}\n{\"error\":\"HierarchyRequestError\"}\n{\"ok\":[2,1,6]}\n{\"ok\":1}\n{\"error\":\"HierarchyRequestError\"}\n{\"ok\":6}\n{\"error\":\"HierarchyRequestError\"}\n{\"ok\":1}\n{\"ok\":[6,2,1]}\n",
};

pub const COPIES_AND_POSITIONS: Dialogue = Dialogue {
    name: "copies and positions",
    numbers: 4294967295,
    line: 1048576,
    given: Bytes::Text(
        "[\"createElement\",0,\"p\"]\n[\"createText\",0,\"a\"]\n[\"createElement\",0,\"b\"]\n[\"appendChild\",1,2]\n[\"appendChild\",1,3]\n[\"cloneNode\",1,true]\n[\"children\",4]\n[\"isEqual\",1,4]\n[\"contains\",1,3]\n[\"comparePosition\",1,3]\n[\"comparePosition\",2,3]\n[\"comparePosition\",1,4]\n[\"comparePosition\",4,1]\n[\"setTextContent\",3,\"z\"]\n[\"textContent\",1]\n[\"newDocument\"]\n[\"importNode\",8,1,false]\n[\"adoptNode\",8,1]\n[\"node\",3]\n[\"replaceChildren\",1,9]\n[\"children\",1]\n[\"adoptNode\",0,8]\n",
    ),
    due: "{\"ok\":1}\n{\"ok\":2}\n{\"ok\":3}\n{\"ok\":2}\n{\"ok\":3}\n{\"ok\":4}\n{\"ok\":[5,6]}\n{\"ok\":true}\n{\"ok\":true}\n{\"ok\":20}\n{\"ok\":4}\n{\"ok\":37}\n{\"ok\":35}\n{\"ok\":null}\n{\"ok\":\"az\"}\n{\"ok\":8}\n{\"ok\":9}\n{\"ok\":1}\n{\"ok\":{\"document\":8,\"name\":\"b\",\"next\":null,\"parent\":1,\"previous\":2,\"type\":1}}\n{\"ok\":null}\n{\"ok\":[9]}\n{\"error\":\"NotSupportedError\"}\n",
};

pub const DATA_COUNTED_IN_UNITS: Dialogue = Dialogue {
    name: "data counted in units",
    numbers: 4294967295,
    line: 1048576,
    given: Bytes::Text(
        "[\"createText\",0,\"a😀b\"]\n[\"length\",1]\n[\"splitText\",1,2]\n[\"data\",1]\n[\"data\",2]\n",
    ),
    due: "{\"ok\":1}\n{\"ok\":4}\n{\"ok\":2}\n{\"ok\":[97,55357]}\n{\"ok\":[56832,98]}\n",
};

pub const DISCARDED_TREES: Dialogue = Dialogue {
    name: "discarded trees",
    numbers: 4294967295,
    line: 1048576,
    given: Bytes::Text(
        "[\"createElement\",0,\"p\"]\n[\"createText\",0,\"a\"]\n[\"appendChild\",1,2]\n[\"discard\",2]\n[\"remove\",2]\n[\"createRange\",0]\n[\"setStart\",0,2,0]\n[\"discard\",2]\n[\"releaseRange\",0]\n[\"discard\",2]\n[\"data\",2]\n[\"createText\",0,\"b\"]\n[\"createObserver\"]\n[\"observe\",0,1,{\"childList\":true}]\n[\"appendChild\",1,3]\n[\"removeChild\",1,3]\n[\"discard\",3]\n[\"takeRecords\",0]\n[\"discard\",3]\n[\"discard\",0]\n[\"newDocument\"]\n[\"adoptNode\",4,1]\n[\"discard\",0]\n[\"tree\",0]\n[\"discard\",1]\n[\"disconnect\",0]\n[\"discard\",1]\n[\"tree\",4]\n",
    ),
    due: "{\"ok\":1}\n{\"ok\":2}\n{\"ok\":2}\n{\"error\":\"in-use\"}\n{\"ok\":null}\n{\"ok\":0}\n{\"ok\":null}\n{\"error\":\"in-use\"}\n{\"ok\":null}\n{\"ok\":null}\n{\"error\":\"no-such-object\"}\n{\"ok\":3}\n{\"ok\":0}\n{\"ok\":null}\n{\"ok\":3}\n{\"ok\":3}\n{\"error\":\"in-use\"}\n{\"ok\":[[\"childList\",1,[3],[],null,null,null,null],[\"childList\",1,[],[3],null,null,null,null]]}\n{\"ok\":null}\n{\"error\":\"in-use\"}\n{\"ok\":4}\n{\"ok\":1}\n{\"ok\":null}\n{\"error\":\"no-such-object\"}\n{\"error\":\"in-use\"}\n{\"ok\":null}\n{\"ok\":null}\n{\"ok\":[[0,4,9,\"#document\"]]}\n",
};

pub const DOCUMENTS_OF_COPIES: Dialogue = Dialogue {
    name: "documents of copies",
    numbers: 4294967295,
    line: 1048576,
    given: Bytes::Text(
        "[\"createElement\",0,\"a\"]\n[\"createElement\",0,\"b\"]\n[\"createText\",0,\"c\"]\n[\"createComment\",0,\"d\"]\n[\"appendChild\",0,1]\n[\"appendChild\",1,2]\n[\"appendChild\",2,3]\n[\"appendChild\",1,4]\n[\"newDocument\"]\n[\"importNode\",5,1,true]\n[\"tree\",6]\n[\"node\",9]\n[\"cloneNode\",0,true]\n[\"tree\",10]\n[\"node\",10]\n[\"node\",14]\n[\"cloneNode\",1,false]\n[\"node\",15]\n[\"children\",15]\n[\"importNode\",5,0,true]\n[\"cloneContents\",0]\n",
    ),
    due: "{\"ok\":1}\n{\"ok\":2}\n{\"ok\":3}\n{\"ok\":4}\n{\"ok\":1}\n{\"ok\":2}\n{\"ok\":3}\n{\"ok\":4}\n{\"ok\":5}\n{\"ok\":6}\n{\"ok\":[[0,6,1,\"a\",[]],[1,7,1,\"b\",[]],[2,8,3,\"#text\",\"c\"],[1,9,8,\"#comment\",\"d\"]]}\n{\"ok\":{\"document\":5,\"name\":\"#comment\",\"next\":null,\"parent\":6,\"previous\":7,\"type\":8}}\n{\"ok\":10}\n{\"ok\":[[0,10,9,\"#document\"],[1,11,1,\"a\",[]],[2,12,1,\"b\",[]],[3,13,3,\"#text\",\"c\"],[2,14,8,\"#comment\",\"d\"]]}\n{\"ok\":{\"document\":10,\"name\":\"#document\",\"next\":null,\"parent\":null,\"previous\":null,\"type\":9}}\n{\"ok\":{\"document\":10,\"name\":\"#comment\",\"next\":null,\"parent\":11,\"previous\":12,\"type\":8}}\n{\"ok\":15}\n{\"ok\":{\"document\":0,\"name\":\"a\",\"next\":null,\"parent\":null,\"previous\":null,\"type\":1}}\n{\"ok\":[]}\n{\"error\":\"NotSupportedError\"}\n{\"error\":\"no-such-object\"}\n",
};

pub const LONE_SURROGATE: Dialogue = Dialogue {
    name: "lone surrogate",
    numbers: 4294967295,
    line: 1048576,
    given: Bytes::Text(
        "[\"createText\",0,[55296]]\n[\"createText\",0,\"a\\ud83d\\ude00\"]\n[\"createText\",0,[97,55357,56832]]\n[\"tree\",1]\n[\"tree\",2]\n[\"tree\",3]\n",
    ),
    due: "{\"ok\":1}\n{\"ok\":2}\n{\"ok\":3}\n{\"ok\":[[0,1,3,\"#text\",[55296]]]}\n{\"ok\":[[0,2,3,\"#text\",\"a😀\"]]}\n{\"ok\":[[0,3,3,\"#text\",\"a😀\"]]}\n",
};

pub const MOVES_BETWEEN_DOCUMENTS: Dialogue = Dialogue {
    name: "moves between documents",
    numbers: 4294967295,
    line: 1048576,
    given: Bytes::Text(
        "[\"createElement\",0,\"r\"]\n[\"createText\",0,\"é\"]\n[\"appendChild\",1,2]\n[\"appendChild\",0,1]\n[\"newDocument\"]\n[\"appendChild\",3,1]\n[\"tree\",0]\n[\"tree\",3]\n[\"createElement\",3,\"s\"]\n[\"appendChild\",0,4]\n[\"appendChild\",4,2]\n[\"appendChild\",0,1]\n[\"tree\",0]\n[\"tree\",3]\n",
    ),
    due: "{\"ok\":1}\n{\"ok\":2}\n{\"ok\":2}\n{\"ok\":1}\n{\"ok\":3}\n{\"ok\":1}\n{\"ok\":[[0,0,9,\"#document\"]]}\n{\"ok\":[[0,3,9,\"#document\"],[1,1,1,\"r\",[]],[2,2,3,\"#text\",\"é\"]]}\n{\"ok\":4}\n{\"ok\":4}\n{\"ok\":2}\n{\"error\":\"HierarchyRequestError\"}\n{\"ok\":[[0,0,9,\"#document\"],[1,4,1,\"s\",[]],[2,2,3,\"#text\",\"é\"]]}\n{\"ok\":[[0,3,9,\"#document\"],[1,1,1,\"r\",[]]]}\n",
};

pub const MOVES_REFUSED: Dialogue = Dialogue {
    name: "moves refused",
    numbers: 4294967295,
    line: 1048576,
    given: Bytes::Text(
        "[\"createElement\",0,\"a\"]\n[\"createElement\",0,\"b\"]\n[\"createText\",0,\"t\"]\n[\"appendChild\",1,2]\n[\"appendChild\",2,1]\n[\"appendChild\",0,3]\n[\"appendChild\",2,3]\n[\"appendChild\",1,3]\n[\"tree\",1]\n[\"newDocument\"]\n[\"appendChild\",0,4]\n[\"createElement\",0,\"1a\"]\n[\"newDocument\"]\n",
    ),
    due: "{\"ok\":1}\n{\"ok\":2}\n{\"ok\":3}\n{\"ok\":2}\n{\"error\":\"HierarchyRequestError\"}\n{\"error\":\"HierarchyRequestError\"}\n{\"ok\":3}\n{\"ok\":3}\n{\"ok\":[[0,1,1,\"a\",[]],[1,2,1,\"b\",[]],[1,3,3,\"#text\",\"t\"]]}\n{\"ok\":4}\n{\"error\":\"HierarchyRequestError\"}\n{\"error\":\"InvalidCharacterError\"}\n{\"ok\":5}\n",
};

pub const ORDER_OF_CHILDREN: Dialogue = Dialogue {
    name: "order of children",
    numbers: 4294967295,
    line: 1048576,
    given: Bytes::Text(
        "[\"createElement\",0,\"r\"]\n[\"createElement\",0,\"a\"]\n[\"createElement\",0,\"b\"]\n[\"createText\",0,\"t\"]\n[\"appendChild\",0,1]\n[\"appendChild\",1,2]\n[\"appendChild\",1,3]\n[\"appendChild\",1,4]\n[\"tree\",1]\n[\"appendChild\",1,2]\n[\"appendChild\",3,4]\n[\"tree\",0]\n[\"appendChild\",4,2]\n[\"appendChild\",3,1]\n[\"appendChild\",3,3]\n[\"appendChild\",3,0]\n[\"appendChild\",0,2]\n[\"appendChild\",0,1]\n[\"appendChild\",0,4]\n[\"tree\",0]\n",
    ),
    due: "{\"ok\":1}\n{\"ok\":2}\n{\"ok\":3}\n{\"ok\":4}\n{\"ok\":1}\n{\"ok\":2}\n{\"ok\":3}\n{\"ok\":4}\n{\"ok\":[[0,1,1,\"r\",[]],[1,2,1,\"a\",[]],[1,3,1,\"b\",[]],[1,4,3,\"#text\",\"t\"]]}\n{\"ok\":2}\n{\"ok\":4}\n{\"ok\":[[0,0,9,\"#document\"],[1,1,1,\"r\",[]],[2,3,1,\"b\",[]],[3,4,3,\"#text\",\"t\"],[2,2,1,\"a\",[]]]}\n{\"error\":\"HierarchyRequestError\"}\n{\"error\":\"HierarchyRequestError\"}\n{\"error\":\"HierarchyRequestError\"}\n{\"error\":\"HierarchyRequestError\"}\n{\"error\":\"HierarchyRequestError\"}\n{\"error\":\"HierarchyRequestError\"}\n{\"error\":\"HierarchyRequestError\"}\n{\"ok\":[[0,0,9,\"#document\"],[1,1,1,\"r\",[]],[2,3,1,\"b\",[]],[3,4,3,\"#text\",\"t\"],[2,2,1,\"a\",[]]]}\n",
};

pub const ORDER_OF_INSERT_REFUSALS: Dialogue = Dialogue {
    name: "order of insert refusals",
    numbers: 4294967295,
    line: 1048576,
    given: Bytes::Text(
        "[\"createElement\",0,\"a\"]\n[\"createElement\",0,\"b\"]\n[\"createElement\",0,\"c\"]\n[\"appendChild\",1,2]\n[\"insertBefore\",2,1,3]\n[\"insertBefore\",2,3,2]\n[\"replaceChild\",1,2,3]\n[\"removeChild\",2,1]\n",
    ),
    due: "{\"ok\":1}\n{\"ok\":2}\n{\"ok\":3}\n{\"ok\":2}\n{\"error\":\"HierarchyRequestError\"}\n{\"error\":\"NotFoundError\"}\n{\"error\":\"NotFoundError\"}\n{\"error\":\"NotFoundError\"}\n",
};

pub const SPLIT_PAST_THE_END: Dialogue = Dialogue {
    name: "split past the end",
    numbers: 4294967295,
    line: 1048576,
    given: Bytes::Text(
        "[\"createText\",0,\"ab\"]\n[\"splitText\",1,2]\n[\"data\",2]\n[\"splitText\",1,3]\n[\"createText\",0,\"\"]\n",
    ),
    due: "{\"ok\":1}\n{\"ok\":2}\n{\"ok\":\"\"}\n{\"error\":\"IndexSizeError\"}\n{\"ok\":3}\n",
};

pub const TREE_PRINTED: Dialogue = Dialogue {
    name: "tree printed",
    numbers: 4294967295,
    line: 1048576,
    given: Bytes::Text("[\"createElement\",0,\"p\"]\n[\"appendChild\",0,1]\n[\"tree\",0]"),
    due: "{\"ok\":1}\n{\"ok\":1}\n{\"ok\":[[0,0,9,\"#document\"],[1,1,1,\"p\",[]]]}\n",
};
