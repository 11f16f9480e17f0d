//! Written by tools/rows.py from dialogues/ranges.

use crate::{Bytes, Dialogue};

pub const COMMENTS_ARE_NO_TEXT: Dialogue = Dialogue {
    name: "comments are no text",
    numbers: 4294967295,
    line: 1048576,
    given: Bytes::Text(
        "[\"createElement\",0,\"p\"]\n[\"createText\",0,\"ab\"]\n[\"createComment\",0,\"x\"]\n[\"createText\",0,\"cd\"]\n[\"appendChild\",1,2]\n[\"appendChild\",1,3]\n[\"appendChild\",1,4]\n[\"createRange\",0]\n[\"setStart\",0,2,1]\n[\"setEnd\",0,4,1]\n[\"rangeText\",0]\n[\"setStart\",0,3,0]\n[\"rangeText\",0]\n[\"setEnd\",0,3,1]\n[\"rangeText\",0]\n[\"textContent\",1]\n[\"textContent\",3]\n[\"textContent\",0]\n",
    ),
    due: "{\"ok\":1}\n{\"ok\":2}\n{\"ok\":3}\n{\"ok\":4}\n{\"ok\":2}\n{\"ok\":3}\n{\"ok\":4}\n{\"ok\":0}\n{\"ok\":null}\n{\"ok\":null}\n{\"ok\":\"bc\"}\n{\"ok\":null}\n{\"ok\":\"c\"}\n{\"ok\":null}\n{\"ok\":\"\"}\n{\"ok\":\"abcd\"}\n{\"ok\":\"x\"}\n{\"ok\":null}\n",
};

pub const CONTENTS_CLONED_AND_EXTRACTED: Dialogue = Dialogue {
    name: "contents cloned and extracted",
    numbers: 4294967295,
    line: 1048576,
    given: Bytes::Text(
        "[\"createElement\",0,\"r\"]\n[\"createElement\",0,\"a\"]\n[\"createText\",0,\"x\"]\n[\"createElement\",0,\"b\"]\n[\"createText\",0,\"y\"]\n[\"createText\",0,\"tail\"]\n[\"appendChild\",0,1]\n[\"appendChild\",1,2]\n[\"appendChild\",2,3]\n[\"appendChild\",2,4]\n[\"appendChild\",4,5]\n[\"appendChild\",1,6]\n[\"setAttribute\",2,\"k\",\"v\"]\n[\"createRange\",0]\n[\"setStart\",0,1,0]\n[\"setEnd\",0,6,2]\n[\"cloneContents\",0]\n[\"tree\",7]\n[\"range\",0]\n[\"extractContents\",0]\n[\"tree\",13]\n[\"data\",6]\n[\"range\",0]\n[\"createDoctype\",0,\"d\",\"\",\"\"]\n[\"insertBefore\",0,15,1]\n[\"selectNodeContents\",0,0]\n[\"extractContents\",0]\n[\"cloneContents\",0]\n[\"createFragment\",0]\n[\"rangeText\",0]\n",
    ),
    due: "{\"ok\":1}\n{\"ok\":2}\n{\"ok\":3}\n{\"ok\":4}\n{\"ok\":5}\n{\"ok\":6}\n{\"ok\":1}\n{\"ok\":2}\n{\"ok\":3}\n{\"ok\":4}\n{\"ok\":5}\n{\"ok\":6}\n{\"ok\":null}\n{\"ok\":0}\n{\"ok\":null}\n{\"ok\":null}\n{\"ok\":7}\n{\"ok\":[[0,7,11,\"#document-fragment\"],[1,8,1,\"a\",[[\"k\",\"v\"]]],[2,9,3,\"#text\",\"x\"],[2,10,1,\"b\",[]],[3,11,3,\"#text\",\"y\"],[1,12,3,\"#text\",\"ta\"]]}\n{\"ok\":[1,0,6,2]}\n{\"ok\":13}\n{\"ok\":[[0,13,11,\"#document-fragment\"],[1,2,1,\"a\",[[\"k\",\"v\"]]],[2,3,3,\"#text\",\"x\"],[2,4,1,\"b\",[]],[3,5,3,\"#text\",\"y\"],[1,14,3,\"#text\",\"ta\"]]}\n{\"ok\":\"il\"}\n{\"ok\":[1,0,1,0]}\n{\"ok\":15}\n{\"ok\":15}\n{\"ok\":null}\n{\"error\":\"HierarchyRequestError\"}\n{\"error\":\"HierarchyRequestError\"}\n{\"ok\":16}\n{\"ok\":\"il\"}\n",
};

pub const CONTENTS_OF_A_RANGE: Dialogue = Dialogue {
    name: "contents of a range",
    numbers: 4294967295,
    line: 1048576,
    given: Bytes::Text(
        "[\"createElement\",0,\"p\"]\n[\"createText\",0,\"abc\"]\n[\"createElement\",0,\"b\"]\n[\"createText\",0,\"de\"]\n[\"createComment\",0,\"x\"]\n[\"appendChild\",1,2]\n[\"appendChild\",1,3]\n[\"appendChild\",3,4]\n[\"appendChild\",1,5]\n[\"createRange\",0]\n[\"setStart\",0,2,1]\n[\"setEnd\",0,4,1]\n[\"rangeText\",0]\n[\"commonAncestor\",0]\n[\"comparePoint\",0,2,0]\n[\"isPointInRange\",0,3,0]\n[\"intersectsNode\",0,5]\n[\"cloneContents\",0]\n[\"children\",6]\n[\"children\",8]\n[\"deleteContents\",0]\n[\"data\",4]\n[\"range\",0]\n[\"insertNode\",0,5]\n[\"range\",0]\n[\"children\",1]\n[\"selectNode\",0,4]\n[\"cloneRange\",0]\n[\"collapse\",1,true]\n[\"range\",1]\n[\"setStartBefore\",1,1]\n",
    ),
    due: "{\"ok\":1}\n{\"ok\":2}\n{\"ok\":3}\n{\"ok\":4}\n{\"ok\":5}\n{\"ok\":2}\n{\"ok\":3}\n{\"ok\":4}\n{\"ok\":5}\n{\"ok\":0}\n{\"ok\":null}\n{\"ok\":null}\n{\"ok\":\"bcd\"}\n{\"ok\":1}\n{\"ok\":-1}\n{\"ok\":true}\n{\"ok\":false}\n{\"ok\":6}\n{\"ok\":[7,8]}\n{\"ok\":[10]}\n{\"ok\":null}\n{\"ok\":\"e\"}\n{\"ok\":[1,1,1,1]}\n{\"ok\":null}\n{\"ok\":[1,1,1,2]}\n{\"ok\":[2,5,3]}\n{\"ok\":null}\n{\"ok\":1}\n{\"ok\":null}\n{\"ok\":[3,0,3,0]}\n{\"error\":\"InvalidNodeTypeError\"}\n",
};

pub const EMPTY_ENDS_EXTRACTED: Dialogue = Dialogue {
    name: "empty ends extracted",
    numbers: 4294967295,
    line: 1048576,
    given: Bytes::Text(
        "[\"createElement\",0,\"p\"]\n[\"createText\",0,\"ab\"]\n[\"createElement\",0,\"b\"]\n[\"createText\",0,\"cd\"]\n[\"appendChild\",1,2]\n[\"appendChild\",1,3]\n[\"appendChild\",3,4]\n[\"createRange\",0]\n[\"setStart\",0,2,2]\n[\"setEnd\",0,4,0]\n[\"extractContents\",0]\n[\"tree\",5]\n[\"range\",0]\n[\"setStart\",0,2,2]\n[\"createRange\",0]\n[\"setStart\",1,2,1]\n[\"setEnd\",1,4,1]\n[\"deleteContents\",1]\n[\"range\",0]\n[\"range\",1]\n[\"textContent\",1]\n",
    ),
    due: "{\"ok\":1}\n{\"ok\":2}\n{\"ok\":3}\n{\"ok\":4}\n{\"ok\":2}\n{\"ok\":3}\n{\"ok\":4}\n{\"ok\":0}\n{\"ok\":null}\n{\"ok\":null}\n{\"ok\":5}\n{\"ok\":[[0,5,11,\"#document-fragment\"],[1,6,3,\"#text\",\"\"],[1,7,1,\"b\",[]],[2,9,3,\"#text\",\"\"]]}\n{\"ok\":[1,1,1,1]}\n{\"ok\":null}\n{\"ok\":1}\n{\"ok\":null}\n{\"ok\":null}\n{\"ok\":null}\n{\"ok\":[2,1,1,1]}\n{\"ok\":[1,1,1,1]}\n{\"ok\":\"ad\"}\n",
};

pub const ENDS_AFTER_INSERTION: Dialogue = Dialogue {
    name: "ends after insertion",
    numbers: 4294967295,
    line: 1048576,
    given: Bytes::Text(
        "[\"createElement\",0,\"p\"]\n[\"createText\",0,\"a\"]\n[\"createText\",0,\"b\"]\n[\"createText\",0,\"n\"]\n[\"appendChild\",1,2]\n[\"appendChild\",1,3]\n[\"appendChild\",1,4]\n[\"createRange\",0]\n[\"setStart\",0,3,0]\n[\"setEnd\",0,4,1]\n[\"insertBefore\",1,4,2]\n[\"range\",0]\n",
    ),
    due: "{\"ok\":1}\n{\"ok\":2}\n{\"ok\":3}\n{\"ok\":4}\n{\"ok\":2}\n{\"ok\":3}\n{\"ok\":4}\n{\"ok\":0}\n{\"ok\":null}\n{\"ok\":null}\n{\"ok\":4}\n{\"ok\":[3,0,1,3]}\n",
};

pub const ENDS_AFTER_NORMALIZING: Dialogue = Dialogue {
    name: "ends after normalizing",
    numbers: 4294967295,
    line: 1048576,
    given: Bytes::Text(
        "[\"createElement\",0,\"p\"]\n[\"createText\",0,\"\"]\n[\"createText\",0,\"a\"]\n[\"createText\",0,\"\"]\n[\"createText\",0,\"b\"]\n[\"createComment\",0,\"x\"]\n[\"createText\",0,\"c\"]\n[\"appendChild\",1,2]\n[\"appendChild\",1,3]\n[\"appendChild\",1,4]\n[\"appendChild\",1,5]\n[\"appendChild\",1,6]\n[\"appendChild\",1,7]\n[\"createObserver\"]\n[\"observe\",0,1,{\"childList\":true,\"subtree\":true,\"characterDataOldValue\":true}]\n[\"createRange\",0]\n[\"createRange\",0]\n[\"setStart\",0,4,0]\n[\"setEnd\",0,1,3]\n[\"setStart\",1,5,1]\n[\"setEnd\",1,1,5]\n[\"normalize\",1]\n[\"range\",0]\n[\"range\",1]\n[\"children\",1]\n[\"takeRecords\",0]\n",
    ),
    due: "{\"ok\":1}\n{\"ok\":2}\n{\"ok\":3}\n{\"ok\":4}\n{\"ok\":5}\n{\"ok\":6}\n{\"ok\":7}\n{\"ok\":2}\n{\"ok\":3}\n{\"ok\":4}\n{\"ok\":5}\n{\"ok\":6}\n{\"ok\":7}\n{\"ok\":0}\n{\"ok\":null}\n{\"ok\":0}\n{\"ok\":1}\n{\"ok\":null}\n{\"ok\":null}\n{\"ok\":null}\n{\"ok\":null}\n{\"ok\":null}\n{\"ok\":[3,1,3,1]}\n{\"ok\":[3,2,1,2]}\n{\"ok\":[3,6,7]}\n{\"ok\":[[\"childList\",1,[],[2],null,3,null,null],[\"characterData\",3,[],[],null,null,null,\"a\"],[\"childList\",1,[],[4],3,5,null,null],[\"childList\",1,[],[5],3,6,null,null],[\"characterData\",7,[],[],null,null,null,\"c\"]]}\n",
};

pub const ENDS_AFTER_REPLACED_DATA: Dialogue = Dialogue {
    name: "ends after replaced data",
    numbers: 4294967295,
    line: 1048576,
    given: Bytes::Text(
        "[\"createText\",0,\"abcdefg\"]\n[\"createRange\",0]\n[\"createRange\",0]\n[\"setStart\",0,1,2]\n[\"setEnd\",0,1,3]\n[\"setStart\",1,1,5]\n[\"setEnd\",1,1,6]\n[\"replaceData\",1,2,3,\"XY\"]\n[\"data\",1]\n[\"range\",0]\n[\"range\",1]\n[\"replaceData\",1,4,4294967295,\"\"]\n[\"range\",1]\n[\"replaceData\",1,4294967295,4294967295,\"\"]\n",
    ),
    due: "{\"ok\":1}\n{\"ok\":0}\n{\"ok\":1}\n{\"ok\":null}\n{\"ok\":null}\n{\"ok\":null}\n{\"ok\":null}\n{\"ok\":null}\n{\"ok\":\"abXYfg\"}\n{\"ok\":[1,2,1,2]}\n{\"ok\":[1,2,1,5]}\n{\"ok\":null}\n{\"ok\":[1,2,1,4]}\n{\"error\":\"IndexSizeError\"}\n",
};

pub const ENDS_AFTER_SPLIT: Dialogue = Dialogue {
    name: "ends after split",
    numbers: 4294967295,
    line: 1048576,
    given: Bytes::Text(
        "[\"createElement\",0,\"p\"]\n[\"createText\",0,\"abcd\"]\n[\"createText\",0,\"e\"]\n[\"appendChild\",1,2]\n[\"appendChild\",1,3]\n[\"createRange\",0]\n[\"createRange\",0]\n[\"setStart\",0,2,2]\n[\"setEnd\",0,2,3]\n[\"setStart\",1,1,1]\n[\"setEnd\",1,1,2]\n[\"splitText\",2,2]\n[\"range\",0]\n[\"range\",1]\n",
    ),
    due: "{\"ok\":1}\n{\"ok\":2}\n{\"ok\":3}\n{\"ok\":2}\n{\"ok\":3}\n{\"ok\":0}\n{\"ok\":1}\n{\"ok\":null}\n{\"ok\":null}\n{\"ok\":null}\n{\"ok\":null}\n{\"ok\":4}\n{\"ok\":[2,2,4,1]}\n{\"ok\":[1,2,1,3]}\n",
};

pub const ENDS_AT_JOINED_TEXTS: Dialogue = Dialogue {
    name: "ends at joined texts",
    numbers: 4294967295,
    line: 1048576,
    given: Bytes::Text(
        "[\"createElement\",0,\"p\"]\n[\"createText\",0,\"a\"]\n[\"createText\",0,\"bc\"]\n[\"createText\",0,\"\"]\n[\"createText\",0,\"d\"]\n[\"appendChild\",1,2]\n[\"appendChild\",1,3]\n[\"appendChild\",1,4]\n[\"appendChild\",1,5]\n[\"createRange\",0]\n[\"createRange\",0]\n[\"createRange\",0]\n[\"setStart\",0,1,1]\n[\"setEnd\",0,3,1]\n[\"setStart\",1,1,3]\n[\"setEnd\",1,1,4]\n[\"setStart\",2,2,1]\n[\"setEnd\",2,5,0]\n[\"normalize\",1]\n[\"children\",1]\n[\"data\",2]\n[\"range\",0]\n[\"range\",1]\n[\"range\",2]\n",
    ),
    due: "{\"ok\":1}\n{\"ok\":2}\n{\"ok\":3}\n{\"ok\":4}\n{\"ok\":5}\n{\"ok\":2}\n{\"ok\":3}\n{\"ok\":4}\n{\"ok\":5}\n{\"ok\":0}\n{\"ok\":1}\n{\"ok\":2}\n{\"ok\":null}\n{\"ok\":null}\n{\"ok\":null}\n{\"ok\":null}\n{\"ok\":null}\n{\"ok\":null}\n{\"ok\":null}\n{\"ok\":[2]}\n{\"ok\":\"abcd\"}\n{\"ok\":[2,1,2,2]}\n{\"ok\":[2,3,1,1]}\n{\"ok\":[2,1,2,3]}\n",
};

pub const ENDS_COMPARED: Dialogue = Dialogue {
    name: "ends compared",
    numbers: 4294967295,
    line: 1048576,
    given: Bytes::Text(
        "[\"createText\",0,\"abcd\"]\n[\"createRange\",0]\n[\"createRange\",0]\n[\"setStart\",0,1,1]\n[\"setEnd\",0,1,2]\n[\"setStart\",1,1,2]\n[\"setEnd\",1,1,3]\n[\"compareBoundaryPoints\",0,0,1]\n[\"compareBoundaryPoints\",0,1,1]\n[\"compareBoundaryPoints\",0,2,1]\n[\"compareBoundaryPoints\",0,3,1]\n[\"compareBoundaryPoints\",1,0,0]\n[\"compareBoundaryPoints\",1,1,0]\n[\"compareBoundaryPoints\",1,2,0]\n[\"compareBoundaryPoints\",1,3,0]\n[\"setStart\",0,1,4]\n[\"range\",0]\n[\"setEnd\",1,1,1]\n[\"range\",1]\n[\"comparePoint\",1,1,0]\n[\"comparePoint\",1,1,1]\n[\"comparePoint\",1,1,2]\n[\"comparePoint\",1,1,5]\n[\"comparePoint\",1,0,0]\n",
    ),
    due: "{\"ok\":1}\n{\"ok\":0}\n{\"ok\":1}\n{\"ok\":null}\n{\"ok\":null}\n{\"ok\":null}\n{\"ok\":null}\n{\"ok\":-1}\n{\"ok\":0}\n{\"ok\":-1}\n{\"ok\":-1}\n{\"ok\":1}\n{\"ok\":1}\n{\"ok\":1}\n{\"ok\":0}\n{\"ok\":null}\n{\"ok\":[1,4,1,4]}\n{\"ok\":null}\n{\"ok\":[1,1,1,1]}\n{\"ok\":-1}\n{\"ok\":0}\n{\"ok\":1}\n{\"error\":\"IndexSizeError\"}\n{\"error\":\"WrongDocumentError\"}\n",
};

pub const EXTRACT_ACROSS_PARAGRAPHS: Dialogue = Dialogue {
    name: "extract across paragraphs",
    numbers: 4294967295,
    line: 1048576,
    given: Bytes::Text(
        "[\"createElement\",0,\"div\"]\n[\"createElement\",0,\"p\"]\n[\"createText\",0,\"abcd\"]\n[\"createElement\",0,\"p\"]\n[\"createText\",0,\"efgh\"]\n[\"appendChild\",1,2]\n[\"appendChild\",2,3]\n[\"appendChild\",1,4]\n[\"appendChild\",4,5]\n[\"createRange\",0]\n[\"setStart\",0,3,1]\n[\"setEnd\",0,5,2]\n[\"extractContents\",0]\n[\"tree\",6]\n[\"children\",8]\n[\"data\",5]\n[\"range\",0]\n",
    ),
    due: "{\"ok\":1}\n{\"ok\":2}\n{\"ok\":3}\n{\"ok\":4}\n{\"ok\":5}\n{\"ok\":2}\n{\"ok\":3}\n{\"ok\":4}\n{\"ok\":5}\n{\"ok\":0}\n{\"ok\":null}\n{\"ok\":null}\n{\"ok\":6}\n{\"ok\":[[0,6,11,\"#document-fragment\"],[1,7,1,\"p\",[]],[2,9,3,\"#text\",\"bcd\"],[1,10,1,\"p\",[]],[2,12,3,\"#text\",\"ef\"]]}\n{\"ok\":[]}\n{\"ok\":\"gh\"}\n{\"ok\":[1,1,1,1]}\n",
};

pub const RANGES_COMPARED: Dialogue = Dialogue {
    name: "ranges compared",
    numbers: 4294967295,
    line: 1048576,
    given: Bytes::Text(
        "[\"createRange\",0]\n[\"newDocument\"]\n[\"createRange\",1]\n[\"compareBoundaryPoints\",0,4,1]\n[\"compareBoundaryPoints\",0,0,1]\n[\"compareBoundaryPoints\",0,0,0]\n[\"releaseRange\",1]\n[\"range\",1]\n[\"createRange\",0]\n",
    ),
    due: "{\"ok\":0}\n{\"ok\":1}\n{\"ok\":1}\n{\"error\":\"NotSupportedError\"}\n{\"error\":\"WrongDocumentError\"}\n{\"ok\":0}\n{\"ok\":null}\n{\"error\":\"no-such-object\"}\n{\"ok\":2}\n",
};

pub const REFUSED_SURROUND_LEAVES_NO_TRACE: Dialogue = Dialogue {
    name: "refused surround leaves no trace",
    numbers: 4294967295,
    line: 1048576,
    given: Bytes::Text(
        "[\"createElement\",0,\"r\"]\n[\"createText\",0,\"abc\"]\n[\"createComment\",0,\"k\"]\n[\"appendChild\",1,2]\n[\"createObserver\"]\n[\"observe\",0,1,{\"childList\":true,\"characterData\":true,\"subtree\":true}]\n[\"createRange\",0]\n[\"setStart\",0,2,1]\n[\"setEnd\",0,2,2]\n[\"surroundContents\",0,3]\n[\"takeRecords\",0]\n[\"range\",0]\n[\"tree\",1]\n[\"node\",3]\n[\"createText\",0,\"n\"]\n[\"setStart\",0,4,0]\n[\"insertNode\",0,3]\n[\"takeRecords\",0]\n",
    ),
    due: "{\"ok\":1}\n{\"ok\":2}\n{\"ok\":3}\n{\"ok\":2}\n{\"ok\":0}\n{\"ok\":null}\n{\"ok\":0}\n{\"ok\":null}\n{\"ok\":null}\n{\"error\":\"HierarchyRequestError\"}\n{\"ok\":[]}\n{\"ok\":[2,1,2,2]}\n{\"ok\":[[0,1,1,\"r\",[]],[1,2,3,\"#text\",\"abc\"]]}\n{\"ok\":{\"document\":0,\"name\":\"#comment\",\"next\":null,\"parent\":null,\"previous\":null,\"type\":8}}\n{\"ok\":4}\n{\"ok\":null}\n{\"error\":\"HierarchyRequestError\"}\n{\"ok\":[]}\n",
};

pub const STATIC_RANGES_STAY: Dialogue = Dialogue {
    name: "static ranges stay",
    numbers: 4294967295,
    line: 1048576,
    given: Bytes::Text(
        "[\"createElement\",0,\"p\"]\n[\"createText\",0,\"ab\"]\n[\"appendChild\",1,2]\n[\"createStaticRange\",2,1,1,1]\n[\"staticRange\",0]\n[\"deleteData\",2,0,2]\n[\"staticRange\",0]\n[\"appendData\",2,\"cd\"]\n[\"staticRange\",0]\n[\"createStaticRange\",1,4294967295,2,0]\n[\"staticRange\",1]\n[\"createDoctype\",0,\"d\",\"\",\"\"]\n[\"createStaticRange\",1,0,3,0]\n[\"createStaticRange\",1,0,1,0]\n[\"remove\",2]\n[\"staticRange\",0]\n[\"discard\",2]\n",
    ),
    due: "{\"ok\":1}\n{\"ok\":2}\n{\"ok\":2}\n{\"ok\":0}\n{\"ok\":[2,1,1,1,true]}\n{\"ok\":null}\n{\"ok\":[2,1,1,1,false]}\n{\"ok\":null}\n{\"ok\":[2,1,1,1,true]}\n{\"ok\":1}\n{\"ok\":[1,4294967295,2,0,false]}\n{\"ok\":3}\n{\"error\":\"InvalidNodeTypeError\"}\n{\"ok\":2}\n{\"ok\":null}\n{\"ok\":[2,1,1,1,false]}\n{\"error\":\"in-use\"}\n",
};

pub const SURROUND_ALL_OR_NOTHING: Dialogue = Dialogue {
    name: "surround all or nothing",
    numbers: 4294967295,
    line: 1048576,
    given: Bytes::Text(
        "[\"createElement\",0,\"r\"]\n[\"createText\",0,\"abc\"]\n[\"createElement\",0,\"b\"]\n[\"createText\",0,\"d\"]\n[\"createElement\",0,\"w\"]\n[\"appendChild\",0,1]\n[\"appendChild\",1,2]\n[\"appendChild\",1,3]\n[\"appendChild\",3,4]\n[\"createFragment\",0]\n[\"createComment\",0,\"k\"]\n[\"createRange\",0]\n[\"setStart\",0,2,1]\n[\"setEnd\",0,4,1]\n[\"surroundContents\",0,5]\n[\"setEnd\",0,2,2]\n[\"surroundContents\",0,6]\n[\"surroundContents\",0,7]\n[\"data\",2]\n[\"range\",0]\n[\"surroundContents\",0,5]\n[\"children\",1]\n[\"children\",5]\n[\"range\",0]\n[\"createRange\",0]\n[\"createElement\",0,\"v\"]\n[\"surroundContents\",1,11]\n",
    ),
    due: "{\"ok\":1}\n{\"ok\":2}\n{\"ok\":3}\n{\"ok\":4}\n{\"ok\":5}\n{\"ok\":1}\n{\"ok\":2}\n{\"ok\":3}\n{\"ok\":4}\n{\"ok\":6}\n{\"ok\":7}\n{\"ok\":0}\n{\"ok\":null}\n{\"ok\":null}\n{\"error\":\"InvalidStateError\"}\n{\"ok\":null}\n{\"error\":\"InvalidNodeTypeError\"}\n{\"error\":\"HierarchyRequestError\"}\n{\"ok\":\"abc\"}\n{\"ok\":[2,1,2,2]}\n{\"ok\":null}\n{\"ok\":[2,5,10,3]}\n{\"ok\":[9]}\n{\"ok\":[1,1,1,2]}\n{\"ok\":1}\n{\"ok\":11}\n{\"error\":\"HierarchyRequestError\"}\n",
};

pub const TEXTS_SURROUNDED: Dialogue = Dialogue {
    name: "texts surrounded",
    numbers: 4294967295,
    line: 1048576,
    given: Bytes::Text(
        "[\"createElement\",0,\"p\"]\n[\"createText\",0,\"ab\"]\n[\"createElement\",0,\"b\"]\n[\"createText\",0,\"cd\"]\n[\"createElement\",0,\"w\"]\n[\"createText\",0,\"old\"]\n[\"appendChild\",1,2]\n[\"appendChild\",1,3]\n[\"appendChild\",1,4]\n[\"appendChild\",5,6]\n[\"createRange\",0]\n[\"setStart\",0,2,1]\n[\"setEnd\",0,4,1]\n[\"surroundContents\",0,5]\n[\"children\",1]\n[\"children\",5]\n[\"data\",2]\n[\"data\",8]\n[\"data\",9]\n[\"data\",4]\n[\"range\",0]\n[\"root\",6]\n[\"children\",7]\n[\"setStart\",0,3,0]\n[\"setEnd\",0,9,1]\n[\"surroundContents\",0,6]\n[\"createText\",0,\"\"]\n",
    ),
    due: "{\"ok\":1}\n{\"ok\":2}\n{\"ok\":3}\n{\"ok\":4}\n{\"ok\":5}\n{\"ok\":6}\n{\"ok\":2}\n{\"ok\":3}\n{\"ok\":4}\n{\"ok\":6}\n{\"ok\":0}\n{\"ok\":null}\n{\"ok\":null}\n{\"ok\":null}\n{\"ok\":[2,5,4]}\n{\"ok\":[8,3,9]}\n{\"ok\":\"a\"}\n{\"ok\":\"b\"}\n{\"ok\":\"c\"}\n{\"ok\":\"d\"}\n{\"ok\":[1,1,1,2]}\n{\"ok\":6}\n{\"ok\":[]}\n{\"ok\":null}\n{\"ok\":null}\n{\"error\":\"InvalidStateError\"}\n{\"ok\":10}\n",
};
