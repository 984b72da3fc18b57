// The files of the worked drafts, and one for each refusal of a file: byte for byte, and a record to a line.

pub struct Draft {
    pub name: &'static str,
    pub file: &'static [u8],
}

// a to 0, and g(0,0) and g(1,0) to 1, which is final.
pub const P: Draft = Draft {
    name: "P",
    file: b"\
        \x03\x00\x01\x00\x02\x02\x00\
        \x01\x00\x02\x00\x00\
        \x01\x00\x02\x00\x02\
        \x02\x00\x03\x00\x00\x00\
        \x04\x00\x03\x00\x01\x01\x00\x00\
        \x04\x00\x03\x00\x01\x01\x01\x00\
        \x00\x00\x09\x00",
};

// The leaves a and b go to 0, and g(0,0) to 1, which is final.
pub const PAIRS: Draft = Draft {
    name: "pairs",
    file: b"\
        \x03\x00\x01\x00\x02\x02\x00\
        \x01\x00\x02\x00\x00\
        \x01\x00\x02\x00\x00\
        \x01\x00\x02\x00\x02\
        \x02\x00\x03\x00\x00\x00\
        \x02\x00\x03\x00\x01\x00\
        \x04\x00\x03\x00\x02\x01\x00\x00\
        \x00\x00\x09\x00",
};

// a and g(0,0) both go to 0, which is final.
pub const NESTED: Draft = Draft {
    name: "nested",
    file: b"\
        \x03\x00\x01\x00\x01\x01\x00\
        \x01\x00\x02\x00\x00\
        \x01\x00\x02\x00\x02\
        \x02\x00\x03\x00\x00\x00\
        \x04\x00\x03\x00\x01\x00\x00\x00\
        \x00\x00\x09\x00",
};

// h(0) to 0, final 0.
pub const ENDLESS: Draft = Draft {
    name: "endless",
    file: b"\
        \x03\x00\x01\x00\x01\x01\x00\
        \x01\x00\x02\x00\x01\
        \x03\x00\x03\x00\x00\x00\x00\
        \x00\x00\x09\x00",
};

// One state, final, no rows.
pub const ROWLESS: Draft = Draft {
    name: "rowless",
    file: b"\
        \x03\x00\x01\x00\x01\x01\x00\
        \x01\x00\x02\x00\x00\
        \x00\x00\x09\x00",
};

// a to 0, no final.
pub const FINALLESS: Draft = Draft {
    name: "finalless",
    file: b"\
        \x03\x00\x01\x00\x01\x00\x00\
        \x01\x00\x02\x00\x00\
        \x02\x00\x03\x00\x00\x00\
        \x00\x00\x09\x00",
};

// Three states, a and h(1) go to 0, g(0) to 2, which is final.
pub const UNREACHED: Draft = Draft {
    name: "unreached",
    file: b"\
        \x03\x00\x01\x00\x03\x04\x00\
        \x01\x00\x02\x00\x00\
        \x01\x00\x02\x00\x01\
        \x01\x00\x02\x00\x01\
        \x02\x00\x03\x00\x00\x00\
        \x03\x00\x03\x00\x01\x00\x01\
        \x03\x00\x03\x00\x02\x02\x00\
        \x00\x00\x09\x00",
};

// a to 0, h(0) to 0, final 0: chains of any length.
pub const CHAINS: Draft = Draft {
    name: "chains",
    file: b"\
        \x03\x00\x01\x00\x01\x01\x00\
        \x01\x00\x02\x00\x00\
        \x01\x00\x02\x00\x01\
        \x02\x00\x03\x00\x00\x00\
        \x03\x00\x03\x00\x01\x00\x00\
        \x00\x00\x09\x00",
};

// P without its last byte.
pub const CUT: Draft = Draft {
    name: "cut",
    file: b"\
        \x03\x00\x01\x00\x02\x02\x00\
        \x01\x00\x02\x00\x00\
        \x01\x00\x02\x00\x02\
        \x02\x00\x03\x00\x00\x00\
        \x04\x00\x03\x00\x01\x01\x00\x00\
        \x04\x00\x03\x00\x01\x01\x01\x00\
        \x00\x00\x09",
};

pub const NO_BYTES: Draft = Draft {
    name: "no bytes",
    file: b"",
};

// An end record right away.
pub const ENDED: Draft = Draft {
    name: "ended",
    file: b"\x00\x00\x09\x00",
};

// A head of four bytes.
pub const LONG: Draft = Draft {
    name: "long",
    file: b"\x04\x00\x01\x00\x02\x02\x00\x00",
};

// A head of seventeen states.
pub const MANY: Draft = Draft {
    name: "many",
    file: b"\x03\x00\x01\x00\x11\x00\x00",
};

// P with a byte after its end.
pub const AFTER: Draft = Draft {
    name: "after",
    file: b"\
        \x03\x00\x01\x00\x02\x02\x00\
        \x01\x00\x02\x00\x00\
        \x01\x00\x02\x00\x02\
        \x02\x00\x03\x00\x00\x00\
        \x04\x00\x03\x00\x01\x01\x00\x00\
        \x04\x00\x03\x00\x01\x01\x01\x00\
        \x00\x00\x09\x00\
        \x00",
};
