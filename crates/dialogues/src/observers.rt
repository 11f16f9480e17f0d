//! Written by tools/rows.py from dialogues/observers.

use crate::{Bytes, Dialogue};

pub const FRAGMENT_OBSERVED: Dialogue = Dialogue {
    name: "fragment observed",
    numbers: 4294967295,
    line: 1048576,
    given: Bytes::Text(
        "[\"createElement\",0,\"p\"]\n[\"createFragment\",0]\n[\"createText\",0,\"a\"]\n[\"appendChild\",2,3]\n[\"createObserver\"]\n[\"createObserver\"]\n[\"observe\",0,2,{\"childList\":true}]\n[\"appendChild\",1,2]\n[\"takeRecords\",0]\n[\"createElement\",0,\"b\"]\n[\"observe\",1,1,{\"attributes\":true,\"subtree\":true}]\n[\"replaceChildren\",1,4]\n[\"replaceChildren\",1,null]\n[\"setAttribute\",4,\"k\",\"v\"]\n[\"takeRecords\",1]\n",
    ),
    due: "{\"ok\":1}\n{\"ok\":2}\n{\"ok\":3}\n{\"ok\":3}\n{\"ok\":0}\n{\"ok\":1}\n{\"ok\":null}\n{\"ok\":2}\n{\"ok\":[[\"childList\",2,[],[3],null,null,null,null]]}\n{\"ok\":4}\n{\"ok\":null}\n{\"ok\":null}\n{\"ok\":null}\n{\"ok\":null}\n{\"ok\":[[\"attributes\",4,[],[],null,null,\"k\",null]]}\n",
};

pub const MEMBERS_OF_OPTIONS: Dialogue = Dialogue {
    name: "members of options",
    numbers: 4294967295,
    line: 1048576,
    given: Bytes::Text(
        "[\"createElement\",0,\"e\"]\n[\"createElement\",0,\"f\"]\n[\"createObserver\"]\n[\"observe\",0,1,{\"childList\":true,\"childList\":false}]\n[\"observe\",0,1,{\"ChildList\":true}]\n[\"observe\",0,1,{\"childList \":true}]\n[\"observe\",0,1,{\"other\":true}]\n[\"observe\",0,1,{\"childList\":1}]\n[\"observe\",0,1,{\"childList\":null}]\n[\"observe\",0,1,{\"childList\":\"true\"}]\n[\"observe\",0,1,{\"childList\":[]}]\n[\"observe\",0,1,{\"attributes\":0}]\n[\"observe\",0,1,{\"characterData\":{}}]\n[\"observe\",0,1,{\"childList\":true,\"subtree\":1}]\n[\"observe\",0,1,{\"childList\":true,\"subtree\":null}]\n[\"observe\",0,1,{\"childList\":true,\"attributeOldValue\":null}]\n[\"observe\",0,1,{\"childList\":true,\"characterDataOldValue\":\"x\"}]\n[\"observe\",0,1,{\"childList\":true,\"attributeFilter\":\"x\"}]\n[\"observe\",0,1,{\"childList\":true,\"attributeFilter\":null}]\n[\"observe\",0,1,{\"childList\":true,\"attributeFilter\":{}}]\n[\"observe\",0,1,{\"childList\":true,\"attributeFilter\":[7]}]\n[\"observe\",0,1,{\"childList\":true,\"attributeFilter\":[\"x\",null]}]\n[\"observe\",0,1,{\"childList\":true,\"attributeFilter\":[[\"x\"]]}]\n[\"observe\",0,1,{\"childList\":true,\"childList\":1}]\n[\"observe\",0,1,null]\n[\"observe\",0,1,true]\n[\"observe\",0,1,\"childList\"]\n[\"observe\",0,1,[[\"childList\",true]]]\n[\"observe\",9,9,{\"childList\":1}]\n[\"observe\",9,9,{}]\n[\"setAttribute\",1,\"x\",\"0\"]\n[\"appendChild\",1,2]\n[\"takeRecords\",0]\n[\"observe\",0,1,{\"childList\":1,\"childList\":true,\"other\":[{\"deep\":null}],\"\":0,\"subtree\":\"no\",\"subtree\":false}]\n[\"remove\",2]\n[\"takeRecords\",0]\n[\"observe\",0,1,{\"attributeFilter\":[\"y\"],\"attributeFilter\":[\"x\",\"x\"]}]\n[\"setAttribute\",1,\"y\",\"1\"]\n[\"setAttribute\",1,\"x\",\"1\"]\n[\"takeRecords\",0]\n[\"observe\",0,1,{\"child\\u004cist\":true,\"attributes\":true,\"attributes\":false}]\n[\"setAttribute\",1,\"x\",\"2\"]\n[\"appendChild\",1,2]\n[\"takeRecords\",0]\n",
    ),
    due: "{\"ok\":1}\n{\"ok\":2}\n{\"ok\":0}\n{\"error\":\"TypeError\"}\n{\"error\":\"TypeError\"}\n{\"error\":\"TypeError\"}\n{\"error\":\"TypeError\"}\n{\"error\":\"bad-arguments\"}\n{\"error\":\"bad-arguments\"}\n{\"error\":\"bad-arguments\"}\n{\"error\":\"bad-arguments\"}\n{\"error\":\"bad-arguments\"}\n{\"error\":\"bad-arguments\"}\n{\"error\":\"bad-arguments\"}\n{\"error\":\"bad-arguments\"}\n{\"error\":\"bad-arguments\"}\n{\"error\":\"bad-arguments\"}\n{\"error\":\"bad-arguments\"}\n{\"error\":\"bad-arguments\"}\n{\"error\":\"bad-arguments\"}\n{\"error\":\"bad-arguments\"}\n{\"error\":\"bad-arguments\"}\n{\"error\":\"bad-arguments\"}\n{\"error\":\"bad-arguments\"}\n{\"error\":\"bad-arguments\"}\n{\"error\":\"bad-arguments\"}\n{\"error\":\"bad-arguments\"}\n{\"error\":\"bad-arguments\"}\n{\"error\":\"bad-arguments\"}\n{\"error\":\"no-such-object\"}\n{\"ok\":null}\n{\"ok\":2}\n{\"ok\":[]}\n{\"ok\":null}\n{\"ok\":null}\n{\"ok\":[[\"childList\",1,[],[2],null,null,null,null]]}\n{\"ok\":null}\n{\"ok\":null}\n{\"ok\":null}\n{\"ok\":[[\"attributes\",1,[],[],null,null,\"x\",null]]}\n{\"ok\":null}\n{\"ok\":null}\n{\"ok\":2}\n{\"ok\":[[\"childList\",1,[2],[],null,null,null,null]]}\n",
};

pub const NODE_BEFORE_ITSELF: Dialogue = Dialogue {
    name: "node before itself",
    numbers: 4294967295,
    line: 1048576,
    given: Bytes::Text(
        "[\"createElement\",0,\"p\"]\n[\"createElement\",0,\"x\"]\n[\"createElement\",0,\"n\"]\n[\"appendChild\",1,2]\n[\"appendChild\",1,3]\n[\"createObserver\"]\n[\"observe\",0,1,{\"childList\":true}]\n[\"insertBefore\",1,2,2]\n[\"children\",1]\n[\"takeRecords\",0]\n[\"appendChild\",1,3]\n[\"takeRecords\",0]\n",
    ),
    due: "{\"ok\":1}\n{\"ok\":2}\n{\"ok\":3}\n{\"ok\":2}\n{\"ok\":3}\n{\"ok\":0}\n{\"ok\":null}\n{\"ok\":2}\n{\"ok\":[2,3]}\n{\"ok\":[[\"childList\",1,[],[2],null,3,null,null],[\"childList\",1,[2],[],null,3,null,null]]}\n{\"ok\":3}\n{\"ok\":[[\"childList\",1,[],[3],2,null,null,null],[\"childList\",1,[3],[],2,null,null,null]]}\n",
};

pub const OBSERVER_OPTIONS: Dialogue = Dialogue {
    name: "observer options",
    numbers: 4294967295,
    line: 1048576,
    given: Bytes::Text(
        "[\"createElement\",0,\"a\"]\n[\"createElement\",0,\"b\"]\n[\"appendChild\",1,2]\n[\"createText\",0,\"t\"]\n[\"appendChild\",2,3]\n[\"createObserver\"]\n[\"observe\",0,1,{}]\n[\"observe\",0,1,{\"subtree\":true}]\n[\"observe\",0,1,{\"childList\":false}]\n[\"observe\",0,1,{\"childList\":true,\"attributes\":false,\"attributeOldValue\":true}]\n[\"observe\",0,1,{\"childList\":true,\"attributes\":false,\"attributeFilter\":[]}]\n[\"observe\",0,1,{\"childList\":true,\"characterData\":false,\"characterDataOldValue\":true}]\n[\"observe\",1,1,{\"childList\":true}]\n[\"observe\",0,9,{}]\n[\"observe\",0,1,{\"childList\":true,\"attributes\":false,\"attributeOldValue\":false}]\n[\"setAttribute\",1,\"x\",\"1\"]\n[\"takeRecords\",0]\n[\"observe\",0,1,{\"attributeOldValue\":false}]\n[\"setAttribute\",1,\"x\",\"2\"]\n[\"setAttribute\",2,\"x\",\"2\"]\n[\"takeRecords\",0]\n[\"observe\",0,1,{\"attributeFilter\":[\"y\",\"x\"]}]\n[\"setAttribute\",1,\"z\",\"2\"]\n[\"setAttribute\",1,\"x\",\"3\"]\n[\"takeRecords\",0]\n[\"observe\",0,1,{\"attributeFilter\":[]}]\n[\"setAttribute\",1,\"x\",\"4\"]\n[\"takeRecords\",0]\n[\"observe\",0,1,{\"characterDataOldValue\":false,\"subtree\":true}]\n[\"setData\",3,\"u\"]\n[\"takeRecords\",0]\n[\"observe\",0,1,{\"characterDataOldValue\":true,\"subtree\":true,\"attributes\":true,\"attributeOldValue\":true}]\n[\"setData\",3,\"v\"]\n[\"setAttribute\",2,\"x\",\"5\"]\n[\"remove\",3]\n[\"takeRecords\",0]\n[\"takeRecords\",1]\n[\"disconnect\",1]\n",
    ),
    due: "{\"ok\":1}\n{\"ok\":2}\n{\"ok\":2}\n{\"ok\":3}\n{\"ok\":3}\n{\"ok\":0}\n{\"error\":\"TypeError\"}\n{\"error\":\"TypeError\"}\n{\"error\":\"TypeError\"}\n{\"error\":\"TypeError\"}\n{\"error\":\"TypeError\"}\n{\"error\":\"TypeError\"}\n{\"error\":\"no-such-object\"}\n{\"error\":\"no-such-object\"}\n{\"ok\":null}\n{\"ok\":null}\n{\"ok\":[]}\n{\"ok\":null}\n{\"ok\":null}\n{\"ok\":null}\n{\"ok\":[[\"attributes\",1,[],[],null,null,\"x\",null]]}\n{\"ok\":null}\n{\"ok\":null}\n{\"ok\":null}\n{\"ok\":[[\"attributes\",1,[],[],null,null,\"x\",null]]}\n{\"ok\":null}\n{\"ok\":null}\n{\"ok\":[]}\n{\"ok\":null}\n{\"ok\":null}\n{\"ok\":[[\"characterData\",3,[],[],null,null,null,null]]}\n{\"ok\":null}\n{\"ok\":null}\n{\"ok\":null}\n{\"ok\":null}\n{\"ok\":[[\"characterData\",3,[],[],null,null,null,\"u\"],[\"attributes\",2,[],[],null,null,\"x\",\"2\"]]}\n{\"error\":\"no-such-object\"}\n{\"error\":\"no-such-object\"}\n",
};

pub const OBSERVERS_APART: Dialogue = Dialogue {
    name: "observers apart",
    numbers: 4294967295,
    line: 1048576,
    given: Bytes::Text(
        "[\"createElement\",0,\"a\"]\n[\"createElement\",0,\"b\"]\n[\"appendChild\",1,2]\n[\"createObserver\"]\n[\"createObserver\"]\n[\"observe\",1,1,{\"attributes\":true,\"attributeOldValue\":true}]\n[\"observe\",0,1,{\"attributes\":true}]\n[\"observe\",0,1,{\"attributes\":true,\"childList\":true}]\n[\"setAttribute\",1,\"x\",\"1\"]\n[\"setAttribute\",1,\"x\",\"2\"]\n[\"pending\"]\n[\"takeRecords\",1]\n[\"remove\",2]\n[\"disconnect\",1]\n[\"setAttribute\",1,\"x\",\"3\"]\n[\"notify\"]\n[\"observe\",1,1,{\"attributes\":true}]\n[\"observe\",1,1,{\"attributes\":true,\"attributeFilter\":[\"y\"]}]\n[\"setAttribute\",1,\"y\",\"4\"]\n[\"setAttribute\",1,\"x\",\"5\"]\n[\"pending\"]\n[\"notify\"]\n",
    ),
    due: "{\"ok\":1}\n{\"ok\":2}\n{\"ok\":2}\n{\"ok\":0}\n{\"ok\":1}\n{\"ok\":null}\n{\"ok\":null}\n{\"ok\":null}\n{\"ok\":null}\n{\"ok\":null}\n{\"ok\":[1,0]}\n{\"ok\":[[\"attributes\",1,[],[],null,null,\"x\",null],[\"attributes\",1,[],[],null,null,\"x\",\"1\"]]}\n{\"ok\":null}\n{\"ok\":null}\n{\"ok\":null}\n{\"ok\":[[0,[[\"attributes\",1,[],[],null,null,\"x\",null],[\"attributes\",1,[],[],null,null,\"x\",null],[\"childList\",1,[],[2],null,null,null,null],[\"attributes\",1,[],[],null,null,\"x\",null]]]]}\n{\"ok\":null}\n{\"ok\":null}\n{\"ok\":null}\n{\"ok\":null}\n{\"ok\":[0,1]}\n{\"ok\":[[0,[[\"attributes\",1,[],[],null,null,\"y\",null],[\"attributes\",1,[],[],null,null,\"x\",null]]],[1,[[\"attributes\",1,[],[],null,null,\"y\",null]]]]}\n",
};

pub const ONE_RECORD_EACH: Dialogue = Dialogue {
    name: "one record each",
    numbers: 4294967295,
    line: 1048576,
    given: Bytes::Text(
        "[\"createElement\",0,\"a\"]\n[\"createElement\",0,\"b\"]\n[\"appendChild\",1,2]\n[\"createObserver\"]\n[\"createObserver\"]\n[\"observe\",0,1,{\"attributeOldValue\":true,\"subtree\":true}]\n[\"observe\",0,2,{\"attributeFilter\":[\"x\"]}]\n[\"observe\",1,2,{\"attributeFilter\":[\"x\"]}]\n[\"setAttribute\",2,\"x\",\"1\"]\n[\"setAttribute\",2,\"x\",\"1\"]\n[\"setAttribute\",2,\"y\",\"2\"]\n[\"takeRecords\",0]\n[\"takeRecords\",1]\n[\"observe\",1,2,{\"subtree\":true}]\n",
    ),
    due: "{\"ok\":1}\n{\"ok\":2}\n{\"ok\":2}\n{\"ok\":0}\n{\"ok\":1}\n{\"ok\":null}\n{\"ok\":null}\n{\"ok\":null}\n{\"ok\":null}\n{\"ok\":null}\n{\"ok\":null}\n{\"ok\":[[\"attributes\",2,[],[],null,null,\"x\",null],[\"attributes\",2,[],[],null,null,\"x\",\"1\"],[\"attributes\",2,[],[],null,null,\"y\",null]]}\n{\"ok\":[[\"attributes\",2,[],[],null,null,\"x\",null],[\"attributes\",2,[],[],null,null,\"x\",null]]}\n{\"error\":\"TypeError\"}\n",
};

pub const ORDER_OF_REGISTRATIONS: Dialogue = Dialogue {
    name: "order of registrations",
    numbers: 4294967295,
    line: 1048576,
    given: Bytes::Text(
        "[\"createElement\",0,\"a\"]\n[\"createElement\",0,\"b\"]\n[\"createElement\",0,\"c\"]\n[\"appendChild\",1,2]\n[\"appendChild\",2,3]\n[\"createObserver\"]\n[\"createObserver\"]\n[\"createObserver\"]\n[\"observe\",0,1,{\"attributes\":true,\"subtree\":true}]\n[\"observe\",1,2,{\"attributes\":true,\"subtree\":true}]\n[\"observe\",2,3,{\"attributes\":true}]\n[\"setAttribute\",3,\"x\",\"1\"]\n[\"pending\"]\n[\"notify\"]\n[\"disconnect\",2]\n[\"remove\",3]\n[\"setAttribute\",3,\"x\",\"2\"]\n[\"pending\"]\n[\"takeRecords\",0]\n[\"notify\"]\n[\"observe\",1,1,{\"attributes\":true}]\n[\"observe\",0,1,{\"attributes\":true,\"attributeOldValue\":true}]\n[\"setAttribute\",1,\"x\",\"3\"]\n[\"pending\"]\n[\"takeRecords\",0]\n[\"setAttribute\",2,\"x\",\"3\"]\n[\"takeRecords\",0]\n[\"notify\"]\n",
    ),
    due: "{\"ok\":1}\n{\"ok\":2}\n{\"ok\":3}\n{\"ok\":2}\n{\"ok\":3}\n{\"ok\":0}\n{\"ok\":1}\n{\"ok\":2}\n{\"ok\":null}\n{\"ok\":null}\n{\"ok\":null}\n{\"ok\":null}\n{\"ok\":[2,1,0]}\n{\"ok\":[[2,[[\"attributes\",3,[],[],null,null,\"x\",null]]],[1,[[\"attributes\",3,[],[],null,null,\"x\",null]]],[0,[[\"attributes\",3,[],[],null,null,\"x\",null]]]]}\n{\"ok\":null}\n{\"ok\":null}\n{\"ok\":null}\n{\"ok\":[1,0]}\n{\"ok\":[[\"attributes\",3,[],[],null,null,\"x\",null]]}\n{\"ok\":[[1,[[\"attributes\",3,[],[],null,null,\"x\",null]]]]}\n{\"ok\":null}\n{\"ok\":null}\n{\"ok\":null}\n{\"ok\":[0,1]}\n{\"ok\":[[\"attributes\",1,[],[],null,null,\"x\",null]]}\n{\"ok\":null}\n{\"ok\":[]}\n{\"ok\":[[1,[[\"attributes\",1,[],[],null,null,\"x\",null],[\"attributes\",2,[],[],null,null,\"x\",null]]]]}\n",
};

pub const TRANSIENT_REGISTRATIONS: Dialogue = Dialogue {
    name: "transient registrations",
    numbers: 4294967295,
    line: 1048576,
    given: Bytes::Text(
        "[\"createElement\",0,\"p\"]\n[\"createText\",0,\"a\"]\n[\"appendChild\",1,2]\n[\"createObserver\"]\n[\"observe\",0,1,{\"characterData\":true,\"subtree\":true}]\n[\"remove\",2]\n[\"setData\",2,\"b\"]\n[\"notify\"]\n[\"setData\",2,\"c\"]\n[\"notify\"]\n[\"appendChild\",1,2]\n[\"remove\",2]\n[\"observe\",0,2,{\"characterDataOldValue\":true}]\n[\"setData\",2,\"d\"]\n[\"takeRecords\",0]\n[\"pending\"]\n[\"notify\"]\n[\"setData\",2,\"e\"]\n[\"takeRecords\",0]\n",
    ),
    due: "{\"ok\":1}\n{\"ok\":2}\n{\"ok\":2}\n{\"ok\":0}\n{\"ok\":null}\n{\"ok\":null}\n{\"ok\":null}\n{\"ok\":[[0,[[\"characterData\",2,[],[],null,null,null,null]]]]}\n{\"ok\":null}\n{\"ok\":[]}\n{\"ok\":2}\n{\"ok\":null}\n{\"ok\":null}\n{\"ok\":null}\n{\"ok\":[[\"characterData\",2,[],[],null,null,null,\"c\"]]}\n{\"ok\":[0]}\n{\"ok\":[]}\n{\"ok\":null}\n{\"ok\":[[\"characterData\",2,[],[],null,null,null,\"d\"]]}\n",
};

pub const TRANSIENTS_OF_TRANSIENTS: Dialogue = Dialogue {
    name: "transients of transients",
    numbers: 4294967295,
    line: 1048576,
    given: Bytes::Text(
        "[\"createElement\",0,\"a\"]\n[\"createElement\",0,\"b\"]\n[\"createElement\",0,\"c\"]\n[\"createElement\",0,\"d\"]\n[\"appendChild\",1,2]\n[\"appendChild\",2,3]\n[\"createObserver\"]\n[\"createObserver\"]\n[\"observe\",0,1,{\"attributes\":true,\"subtree\":true}]\n[\"observe\",1,2,{\"attributes\":true}]\n[\"remove\",3]\n[\"setAttribute\",3,\"x\",\"1\"]\n[\"takeRecords\",0]\n[\"takeRecords\",1]\n[\"appendChild\",3,4]\n[\"remove\",4]\n[\"setAttribute\",4,\"x\",\"2\"]\n[\"takeRecords\",0]\n[\"observe\",0,3,{\"childList\":true}]\n[\"setAttribute\",3,\"x\",\"3\"]\n[\"takeRecords\",0]\n[\"observe\",0,1,{\"childList\":true}]\n[\"setAttribute\",3,\"x\",\"4\"]\n[\"setAttribute\",4,\"x\",\"4\"]\n[\"takeRecords\",0]\n[\"appendChild\",3,4]\n[\"takeRecords\",0]\n[\"observe\",1,1,{\"attributes\":true,\"subtree\":true}]\n[\"remove\",2]\n[\"setAttribute\",2,\"x\",\"5\"]\n[\"disconnect\",1]\n[\"takeRecords\",1]\n[\"setAttribute\",2,\"x\",\"6\"]\n[\"takeRecords\",1]\n[\"pending\"]\n[\"notify\"]\n[\"pending\"]\n",
    ),
    due: "{\"ok\":1}\n{\"ok\":2}\n{\"ok\":3}\n{\"ok\":4}\n{\"ok\":2}\n{\"ok\":3}\n{\"ok\":0}\n{\"ok\":1}\n{\"ok\":null}\n{\"ok\":null}\n{\"ok\":null}\n{\"ok\":null}\n{\"ok\":[[\"attributes\",3,[],[],null,null,\"x\",null]]}\n{\"ok\":[]}\n{\"ok\":4}\n{\"ok\":null}\n{\"ok\":null}\n{\"ok\":[[\"attributes\",4,[],[],null,null,\"x\",null]]}\n{\"ok\":null}\n{\"ok\":null}\n{\"ok\":[[\"attributes\",3,[],[],null,null,\"x\",null]]}\n{\"ok\":null}\n{\"ok\":null}\n{\"ok\":null}\n{\"ok\":[]}\n{\"ok\":4}\n{\"ok\":[[\"childList\",3,[4],[],null,null,null,null]]}\n{\"ok\":null}\n{\"ok\":null}\n{\"ok\":null}\n{\"ok\":null}\n{\"ok\":[]}\n{\"ok\":null}\n{\"ok\":[]}\n{\"ok\":[0,1]}\n{\"ok\":[[0,[[\"childList\",1,[],[2],null,null,null,null]]]]}\n{\"ok\":[]}\n",
};

pub const TWO_TOLD: Dialogue = Dialogue {
    name: "two told",
    numbers: 4294967295,
    line: 1048576,
    given: Bytes::Text(
        "[\"createElement\",0,\"a\"]\n[\"createElement\",0,\"b\"]\n[\"appendChild\",1,2]\n[\"createObserver\"]\n[\"createObserver\"]\n[\"createObserver\"]\n[\"observe\",2,2,{\"attributes\":true}]\n[\"observe\",0,1,{\"attributes\":true,\"subtree\":true}]\n[\"observe\",1,1,{\"childList\":true,\"subtree\":true}]\n[\"remove\",2]\n[\"setAttribute\",2,\"x\",\"1\"]\n[\"pending\"]\n[\"takeRecords\",2]\n[\"setAttribute\",2,\"y\",\"2\"]\n[\"takeRecords\",2]\n[\"pending\"]\n[\"notify\"]\n[\"pending\"]\n[\"setAttribute\",2,\"z\",\"3\"]\n[\"appendChild\",1,2]\n[\"notify\"]\n",
    ),
    due: "{\"ok\":1}\n{\"ok\":2}\n{\"ok\":2}\n{\"ok\":0}\n{\"ok\":1}\n{\"ok\":2}\n{\"ok\":null}\n{\"ok\":null}\n{\"ok\":null}\n{\"ok\":null}\n{\"ok\":null}\n{\"ok\":[1,2,0]}\n{\"ok\":[[\"attributes\",2,[],[],null,null,\"x\",null]]}\n{\"ok\":null}\n{\"ok\":[[\"attributes\",2,[],[],null,null,\"y\",null]]}\n{\"ok\":[1,2,0]}\n{\"ok\":[[1,[[\"childList\",1,[],[2],null,null,null,null]]],[0,[[\"attributes\",2,[],[],null,null,\"x\",null],[\"attributes\",2,[],[],null,null,\"y\",null]]]]}\n{\"ok\":[]}\n{\"ok\":null}\n{\"ok\":2}\n{\"ok\":[[2,[[\"attributes\",2,[],[],null,null,\"z\",null]]],[1,[[\"childList\",1,[2],[],null,null,null,null]]]]}\n",
};
