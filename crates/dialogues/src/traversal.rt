//! Written by tools/rows.py from dialogues/traversal.

use crate::{Bytes, Dialogue};

pub const FILTERS_BY_KIND_AND_NAME: Dialogue = Dialogue {
    name: "filters by kind and name",
    numbers: 4294967295,
    line: 1048576,
    given: Bytes::Text(
        "[\"createElement\",0,\"p\"]\n[\"createText\",0,\"t\"]\n[\"createElement\",0,\"q\"]\n[\"createText\",0,\"u\"]\n[\"appendChild\",1,2]\n[\"appendChild\",1,3]\n[\"appendChild\",3,4]\n[\"appendChild\",0,1]\n[\"createIterator\",0,1,[]]\n[\"nextNode\",0]\n[\"nextNode\",0]\n[\"nextNode\",0]\n[\"previousNode\",0]\n[\"previousNode\",0]\n[\"previousNode\",0]\n[\"iterator\",0]\n[\"createIterator\",0,4,[]]\n[\"nextNode\",1]\n[\"nextNode\",1]\n[\"nextNode\",1]\n[\"iterator\",1]\n[\"createIterator\",0,256,[]]\n[\"nextNode\",2]\n[\"nextNode\",2]\n[\"createIterator\",1,4294967295,[[\"q\",\"accept\"],[\"*\",\"reject\"],[\"#text\",\"accept\"]]]\n[\"nextNode\",3]\n[\"nextNode\",3]\n[\"createIterator\",1,4294967295,[[\"#text\",\"skip\"]]]\n[\"nextNode\",4]\n[\"nextNode\",4]\n[\"nextNode\",4]\n[\"createIterator\",1,4294967295,[[\"*\",\"reject\"]]]\n[\"nextNode\",5]\n[\"iterator\",5]\n[\"createWalker\",0,5,[[\"q\",\"skip\"],[\"q\",\"reject\"]]]\n[\"walk\",0,\"nextNode\"]\n[\"walk\",0,\"nextNode\"]\n[\"walk\",0,\"nextNode\"]\n[\"walk\",0,\"nextNode\"]\n[\"createWalker\",0,4,[[\"q\",\"reject\"]]]\n[\"walk\",1,\"firstChild\"]\n[\"walk\",1,\"nextNode\"]\n[\"createWalker\",0,4,[[\"p\",\"reject\"]]]\n[\"walk\",2,\"firstChild\"]\n[\"createWalker\",0,0,[]]\n[\"walk\",3,\"firstChild\"]\n",
    ),
    due: "{\"ok\":1}\n{\"ok\":2}\n{\"ok\":3}\n{\"ok\":4}\n{\"ok\":2}\n{\"ok\":3}\n{\"ok\":4}\n{\"ok\":1}\n{\"ok\":0}\n{\"ok\":1}\n{\"ok\":3}\n{\"ok\":null}\n{\"ok\":3}\n{\"ok\":1}\n{\"ok\":null}\n{\"ok\":[0,1,true]}\n{\"ok\":1}\n{\"ok\":2}\n{\"ok\":4}\n{\"ok\":null}\n{\"ok\":[0,4,false]}\n{\"ok\":2}\n{\"ok\":0}\n{\"ok\":null}\n{\"ok\":3}\n{\"ok\":3}\n{\"ok\":null}\n{\"ok\":4}\n{\"ok\":1}\n{\"ok\":3}\n{\"ok\":null}\n{\"ok\":5}\n{\"ok\":null}\n{\"ok\":[1,1,true]}\n{\"ok\":0}\n{\"ok\":1}\n{\"ok\":2}\n{\"ok\":4}\n{\"ok\":null}\n{\"ok\":1}\n{\"ok\":2}\n{\"ok\":4}\n{\"ok\":2}\n{\"ok\":2}\n{\"ok\":3}\n{\"ok\":null}\n",
};

pub const ITERATOR_FALLS_BACK: Dialogue = Dialogue {
    name: "iterator falls back",
    numbers: 4294967295,
    line: 1048576,
    given: Bytes::Text(
        "[\"createElement\",0,\"r\"]\n[\"createElement\",0,\"a\"]\n[\"createElement\",0,\"b\"]\n[\"createElement\",0,\"c\"]\n[\"appendChild\",1,2]\n[\"appendChild\",2,3]\n[\"appendChild\",1,4]\n[\"createIterator\",1,4294967295,[]]\n[\"nextNode\",0]\n[\"nextNode\",0]\n[\"nextNode\",0]\n[\"nextNode\",0]\n[\"remove\",4]\n[\"iterator\",0]\n[\"nextNode\",0]\n[\"previousNode\",0]\n[\"iterator\",0]\n[\"appendChild\",1,4]\n[\"remove\",3]\n[\"iterator\",0]\n[\"previousNode\",0]\n[\"nextNode\",0]\n[\"remove\",2]\n[\"iterator\",0]\n[\"nextNode\",0]\n[\"createIterator\",4,4294967295,[]]\n[\"remove\",4]\n[\"iterator\",1]\n[\"appendChild\",1,4]\n[\"appendChild\",2,1]\n[\"remove\",1]\n[\"iterator\",1]\n[\"iterator\",0]\n",
    ),
    due: "{\"ok\":1}\n{\"ok\":2}\n{\"ok\":3}\n{\"ok\":4}\n{\"ok\":2}\n{\"ok\":3}\n{\"ok\":4}\n{\"ok\":0}\n{\"ok\":1}\n{\"ok\":2}\n{\"ok\":3}\n{\"ok\":4}\n{\"ok\":null}\n{\"ok\":[1,3,false]}\n{\"ok\":null}\n{\"ok\":3}\n{\"ok\":[1,3,true]}\n{\"ok\":4}\n{\"ok\":null}\n{\"ok\":[1,4,true]}\n{\"ok\":2}\n{\"ok\":2}\n{\"ok\":null}\n{\"ok\":[1,1,false]}\n{\"ok\":4}\n{\"ok\":1}\n{\"ok\":null}\n{\"ok\":[4,4,true]}\n{\"ok\":4}\n{\"ok\":1}\n{\"ok\":null}\n{\"ok\":[4,4,true]}\n{\"ok\":[1,1,false]}\n",
};

pub const ITERATOR_GIVES_WAY: Dialogue = Dialogue {
    name: "iterator gives way",
    numbers: 4294967295,
    line: 1048576,
    given: Bytes::Text(
        "[\"createElement\",0,\"r\"]\n[\"createElement\",0,\"a\"]\n[\"createElement\",0,\"b\"]\n[\"createElement\",0,\"c\"]\n[\"appendChild\",1,2]\n[\"appendChild\",2,3]\n[\"appendChild\",1,4]\n[\"createIterator\",1,4294967295,[]]\n[\"iterator\",0]\n[\"nextNode\",0]\n[\"nextNode\",0]\n[\"nextNode\",0]\n[\"previousNode\",0]\n[\"remove\",2]\n[\"iterator\",0]\n[\"remove\",4]\n[\"iterator\",0]\n[\"nextNode\",0]\n[\"createElement\",0,\"q\"]\n[\"createElement\",0,\"z\"]\n[\"appendChild\",5,1]\n[\"appendChild\",6,5]\n[\"remove\",5]\n[\"iterator\",0]\n",
    ),
    due: "{\"ok\":1}\n{\"ok\":2}\n{\"ok\":3}\n{\"ok\":4}\n{\"ok\":2}\n{\"ok\":3}\n{\"ok\":4}\n{\"ok\":0}\n{\"ok\":[1,1,true]}\n{\"ok\":1}\n{\"ok\":2}\n{\"ok\":3}\n{\"ok\":3}\n{\"ok\":null}\n{\"ok\":[1,4,true]}\n{\"ok\":null}\n{\"ok\":[1,1,false]}\n{\"ok\":null}\n{\"ok\":5}\n{\"ok\":6}\n{\"ok\":1}\n{\"ok\":5}\n{\"ok\":null}\n{\"ok\":[1,1,false]}\n",
};

pub const WALKER_LISTS: Dialogue = Dialogue {
    name: "walker lists",
    numbers: 4294967295,
    line: 1048576,
    given: Bytes::Text(
        "[\"createElement\",0,\"r\"]\n[\"createElement\",0,\"a\"]\n[\"createElement\",0,\"b\"]\n[\"createElement\",0,\"c\"]\n[\"createElement\",0,\"d\"]\n[\"createElement\",0,\"e\"]\n[\"createElement\",0,\"f\"]\n[\"createElement\",0,\"g\"]\n[\"appendChild\",1,2]\n[\"appendChild\",2,3]\n[\"appendChild\",2,4]\n[\"appendChild\",4,5]\n[\"appendChild\",1,6]\n[\"appendChild\",6,7]\n[\"appendChild\",1,8]\n[\"createWalker\",1,4294967295,[[\"a\",\"skip\"],[\"e\",\"reject\"]]]\n[\"createWalker\",1,4294967295,[]]\n[\"createWalker\",1,4294967295,[[\"r\",\"reject\"]]]\n[\"walk\",0,\"firstChild\"]\n[\"walk\",0,\"nextSibling\"]\n[\"walk\",0,\"nextSibling\"]\n[\"walk\",0,\"nextSibling\"]\n[\"walk\",0,\"previousNode\"]\n[\"walk\",0,\"parentNode\"]\n[\"walk\",0,\"parentNode\"]\n[\"walk\",0,\"parentNode\"]\n[\"walk\",0,\"lastChild\"]\n[\"walk\",0,\"previousSibling\"]\n[\"walk\",0,\"previousSibling\"]\n[\"walk\",0,\"previousSibling\"]\n[\"walker\",0]\n[\"setCurrent\",0,5]\n[\"walk\",0,\"nextNode\"]\n[\"walk\",0,\"nextNode\"]\n[\"setCurrent\",0,7]\n[\"walk\",0,\"previousNode\"]\n[\"setCurrent\",0,7]\n[\"walk\",0,\"nextNode\"]\n[\"setCurrent\",0,6]\n[\"walk\",0,\"firstChild\"]\n[\"setCurrent\",1,4]\n[\"walk\",1,\"nextSibling\"]\n[\"walk\",1,\"previousSibling\"]\n[\"setCurrent\",1,7]\n[\"walk\",1,\"previousNode\"]\n[\"walk\",1,\"previousNode\"]\n[\"setCurrent\",1,2]\n[\"walk\",1,\"lastChild\"]\n[\"walk\",1,\"lastChild\"]\n[\"walk\",1,\"lastChild\"]\n[\"setCurrent\",2,5]\n[\"walk\",2,\"previousNode\"]\n[\"walk\",2,\"parentNode\"]\n[\"walk\",2,\"parentNode\"]\n[\"walk\",2,\"nextSibling\"]\n[\"createWalker\",1,4294967295,[[\"a\",\"reject\"],[\"g\",\"reject\"]]]\n[\"walk\",3,\"firstChild\"]\n[\"setCurrent\",3,1]\n[\"walk\",3,\"lastChild\"]\n[\"createWalker\",4,4294967295,[]]\n[\"setCurrent\",4,5]\n[\"walk\",4,\"nextNode\"]\n[\"walk\",4,\"nextSibling\"]\n[\"walk\",4,\"parentNode\"]\n[\"walk\",4,\"parentNode\"]\n[\"walk\",4,\"previousSibling\"]\n[\"walk\",4,\"nextNode\"]\n[\"walk\",4,\"previousNode\"]\n[\"walk\",4,\"previousNode\"]\n[\"createWalker\",4,4294967295,[[\"c\",\"skip\"]]]\n[\"setCurrent\",5,5]\n[\"walk\",5,\"parentNode\"]\n",
    ),
    due: "{\"ok\":1}\n{\"ok\":2}\n{\"ok\":3}\n{\"ok\":4}\n{\"ok\":5}\n{\"ok\":6}\n{\"ok\":7}\n{\"ok\":8}\n{\"ok\":2}\n{\"ok\":3}\n{\"ok\":4}\n{\"ok\":5}\n{\"ok\":6}\n{\"ok\":7}\n{\"ok\":8}\n{\"ok\":0}\n{\"ok\":1}\n{\"ok\":2}\n{\"ok\":3}\n{\"ok\":4}\n{\"ok\":8}\n{\"ok\":null}\n{\"ok\":5}\n{\"ok\":4}\n{\"ok\":1}\n{\"ok\":null}\n{\"ok\":8}\n{\"ok\":4}\n{\"ok\":3}\n{\"ok\":null}\n{\"ok\":[1,3]}\n{\"ok\":null}\n{\"ok\":8}\n{\"ok\":null}\n{\"ok\":null}\n{\"ok\":5}\n{\"ok\":null}\n{\"ok\":8}\n{\"ok\":null}\n{\"ok\":7}\n{\"ok\":null}\n{\"ok\":null}\n{\"ok\":3}\n{\"ok\":null}\n{\"ok\":6}\n{\"ok\":5}\n{\"ok\":null}\n{\"ok\":4}\n{\"ok\":5}\n{\"ok\":null}\n{\"ok\":null}\n{\"ok\":4}\n{\"ok\":2}\n{\"ok\":null}\n{\"ok\":6}\n{\"ok\":3}\n{\"ok\":6}\n{\"ok\":null}\n{\"ok\":6}\n{\"ok\":4}\n{\"ok\":null}\n{\"ok\":null}\n{\"ok\":null}\n{\"ok\":4}\n{\"ok\":null}\n{\"ok\":null}\n{\"ok\":5}\n{\"ok\":4}\n{\"ok\":null}\n{\"ok\":5}\n{\"ok\":null}\n{\"ok\":null}\n",
};

pub const WALKER_MOVES: Dialogue = Dialogue {
    name: "walker moves",
    numbers: 4294967295,
    line: 1048576,
    given: Bytes::Text(
        "[\"createElement\",0,\"r\"]\n[\"createElement\",0,\"a\"]\n[\"createElement\",0,\"b\"]\n[\"createElement\",0,\"c\"]\n[\"appendChild\",1,2]\n[\"appendChild\",2,3]\n[\"appendChild\",1,4]\n[\"createWalker\",1,4294967295,[[\"a\",\"skip\"]]]\n[\"createWalker\",1,4294967295,[[\"a\",\"reject\"]]]\n[\"walk\",0,\"nextNode\"]\n[\"walk\",1,\"nextNode\"]\n[\"walk\",1,\"nextNode\"]\n[\"walk\",0,\"parentNode\"]\n[\"walk\",0,\"firstChild\"]\n[\"walk\",0,\"nextSibling\"]\n[\"walk\",0,\"previousSibling\"]\n[\"createElement\",0,\"s\"]\n[\"appendChild\",5,1]\n[\"createText\",0,\"t\"]\n[\"appendChild\",5,6]\n[\"setCurrent\",0,6]\n[\"walk\",0,\"nextNode\"]\n[\"walk\",0,\"previousNode\"]\n[\"setCurrent\",1,2]\n[\"walk\",1,\"previousNode\"]\n[\"walk\",1,\"previousNode\"]\n",
    ),
    due: "{\"ok\":1}\n{\"ok\":2}\n{\"ok\":3}\n{\"ok\":4}\n{\"ok\":2}\n{\"ok\":3}\n{\"ok\":4}\n{\"ok\":0}\n{\"ok\":1}\n{\"ok\":3}\n{\"ok\":4}\n{\"ok\":null}\n{\"ok\":1}\n{\"ok\":3}\n{\"ok\":4}\n{\"ok\":3}\n{\"ok\":5}\n{\"ok\":1}\n{\"ok\":6}\n{\"ok\":6}\n{\"ok\":null}\n{\"ok\":null}\n{\"ok\":4}\n{\"ok\":null}\n{\"ok\":1}\n{\"ok\":null}\n",
};

pub const WALKER_OUTSIDE_ITS_ROOT: Dialogue = Dialogue {
    name: "walker outside its root",
    numbers: 4294967295,
    line: 1048576,
    given: Bytes::Text(
        "[\"createElement\",0,\"r\"]\n[\"createElement\",0,\"a\"]\n[\"createElement\",0,\"b\"]\n[\"createElement\",0,\"c\"]\n[\"createElement\",0,\"d\"]\n[\"createElement\",0,\"e\"]\n[\"createElement\",0,\"f\"]\n[\"appendChild\",1,2]\n[\"appendChild\",2,3]\n[\"appendChild\",2,4]\n[\"appendChild\",1,5]\n[\"appendChild\",5,6]\n[\"appendChild\",1,7]\n[\"createWalker\",5,4294967295,[[\"d\",\"reject\"]]]\n[\"setCurrent\",0,2]\n[\"walk\",0,\"nextNode\"]\n[\"walk\",0,\"nextNode\"]\n[\"walk\",0,\"nextNode\"]\n[\"createWalker\",2,4294967295,[[\"a\",\"skip\"],[\"b\",\"skip\"],[\"c\",\"skip\"]]]\n[\"setCurrent\",1,1]\n[\"walk\",1,\"firstChild\"]\n[\"walk\",1,\"lastChild\"]\n[\"createWalker\",7,4294967295,[[\"b\",\"skip\"],[\"c\",\"skip\"]]]\n[\"setCurrent\",2,2]\n[\"walk\",2,\"firstChild\"]\n[\"walk\",2,\"lastChild\"]\n[\"walk\",2,\"nextSibling\"]\n[\"walk\",2,\"previousSibling\"]\n[\"walk\",2,\"previousSibling\"]\n[\"setCurrent\",2,4]\n[\"walk\",2,\"nextSibling\"]\n[\"walk\",2,\"parentNode\"]\n[\"walk\",2,\"parentNode\"]\n[\"walk\",2,\"parentNode\"]\n[\"createWalker\",5,4294967295,[[\"d\",\"skip\"],[\"e\",\"skip\"]]]\n[\"setCurrent\",3,2]\n[\"walk\",3,\"nextSibling\"]\n[\"setCurrent\",3,7]\n[\"walk\",3,\"previousSibling\"]\n[\"createWalker\",5,4294967295,[]]\n[\"setCurrent\",4,7]\n[\"walk\",4,\"previousNode\"]\n[\"createWalker\",5,4294967295,[[\"e\",\"reject\"]]]\n[\"setCurrent\",5,7]\n[\"walk\",5,\"previousNode\"]\n[\"walk\",5,\"previousNode\"]\n[\"createWalker\",5,4294967295,[[\"d\",\"skip\"],[\"e\",\"reject\"]]]\n[\"setCurrent\",6,7]\n[\"walk\",6,\"previousNode\"]\n[\"createWalker\",3,4294967295,[[\"a\",\"skip\"],[\"b\",\"skip\"],[\"c\",\"reject\"]]]\n[\"setCurrent\",7,1]\n[\"walk\",7,\"firstChild\"]\n[\"createWalker\",3,4294967295,[[\"a\",\"skip\"],[\"c\",\"reject\"]]]\n[\"setCurrent\",8,4]\n[\"walk\",8,\"nextSibling\"]\n[\"createWalker\",3,4294967295,[[\"b\",\"skip\"]]]\n[\"setCurrent\",9,4]\n[\"walk\",9,\"previousNode\"]\n[\"createWalker\",7,4294967295,[[\"a\",\"reject\"]]]\n[\"setCurrent\",10,5]\n[\"walk\",10,\"previousNode\"]\n[\"createWalker\",7,4294967295,[[\"a\",\"skip\"]]]\n[\"setCurrent\",11,4]\n[\"walk\",11,\"parentNode\"]\n",
    ),
    due: "{\"ok\":1}\n{\"ok\":2}\n{\"ok\":3}\n{\"ok\":4}\n{\"ok\":5}\n{\"ok\":6}\n{\"ok\":7}\n{\"ok\":2}\n{\"ok\":3}\n{\"ok\":4}\n{\"ok\":5}\n{\"ok\":6}\n{\"ok\":7}\n{\"ok\":0}\n{\"ok\":null}\n{\"ok\":3}\n{\"ok\":4}\n{\"ok\":null}\n{\"ok\":1}\n{\"ok\":null}\n{\"ok\":null}\n{\"ok\":7}\n{\"ok\":2}\n{\"ok\":null}\n{\"ok\":null}\n{\"ok\":null}\n{\"ok\":5}\n{\"ok\":2}\n{\"ok\":null}\n{\"ok\":null}\n{\"ok\":null}\n{\"ok\":2}\n{\"ok\":1}\n{\"ok\":null}\n{\"ok\":3}\n{\"ok\":null}\n{\"ok\":null}\n{\"ok\":null}\n{\"ok\":null}\n{\"ok\":4}\n{\"ok\":null}\n{\"ok\":6}\n{\"ok\":5}\n{\"ok\":null}\n{\"ok\":5}\n{\"ok\":null}\n{\"ok\":6}\n{\"ok\":null}\n{\"ok\":null}\n{\"ok\":7}\n{\"ok\":null}\n{\"ok\":5}\n{\"ok\":8}\n{\"ok\":null}\n{\"ok\":5}\n{\"ok\":9}\n{\"ok\":null}\n{\"ok\":null}\n{\"ok\":10}\n{\"ok\":null}\n{\"ok\":1}\n{\"ok\":11}\n{\"ok\":null}\n{\"ok\":1}\n",
};

pub const WALKER_PAST_ITS_ROOT: Dialogue = Dialogue {
    name: "walker past its root",
    numbers: 4294967295,
    line: 1048576,
    given: Bytes::Text(
        "[\"createElement\",0,\"p\"]\n[\"createElement\",0,\"a\"]\n[\"createElement\",0,\"b\"]\n[\"createElement\",0,\"c\"]\n[\"appendChild\",1,2]\n[\"appendChild\",1,3]\n[\"appendChild\",1,4]\n[\"createWalker\",3,4294967295,[[\"b\",\"skip\"]]]\n[\"setCurrent\",0,4]\n[\"walk\",0,\"previousNode\"]\n[\"walker\",0]\n",
    ),
    due: "{\"ok\":1}\n{\"ok\":2}\n{\"ok\":3}\n{\"ok\":4}\n{\"ok\":2}\n{\"ok\":3}\n{\"ok\":4}\n{\"ok\":0}\n{\"ok\":null}\n{\"ok\":2}\n{\"ok\":[3,2]}\n",
};
