// The texts of refusals.
use crate::looks::{Row, each_holds};
use json_text::{Error, ErrorCode, Place, fault_text};
use std::alloc::Global;

const FIRST: Place = Place::At {
    offset: 0,
    line: 1,
    column: 1,
};

const LATER: Place = Place::At {
    offset: 19,
    line: 4,
    column: 7,
};

// A code and a place, and the text of a refusal that has them.
struct Said {
    code: ErrorCode,
    place: Place,
    text: &'static str,
}

fn is_shown(alloc: Global, error: &Error, text: &str) -> bool {
    match format!(in alloc; "{error}\n") {
        Ok(shown) => shown.as_str() == text,
        Err(_) => false,
    }
}

impl Row for Said {
    fn text(&self) -> &'static str {
        self.text
    }

    fn holds(&self, alloc: Global) -> bool {
        let error = Error {
            code: self.code,
            place: self.place,
        };
        fault_text(&error).as_bytes() == self.text.as_bytes() && is_shown(alloc, &error, self.text)
    }
}

const SAID: &[Said] = &[
    Said {
        code: ErrorCode::EofWhileParsing,
        place: FIRST,
        text: "EofWhileParsing at offset 0, line 1 column 1\n",
    },
    Said {
        code: ErrorCode::InvalidJsonValue,
        place: LATER,
        text: "InvalidJsonValue at offset 19, line 4 column 7\n",
    },
    Said {
        code: ErrorCode::Io,
        place: Place::Reading,
        text: "Io while reading\n",
    },
    Said {
        code: ErrorCode::Io,
        place: Place::Writing,
        text: "Io while writing\n",
    },
    Said {
        code: ErrorCode::BadWords,
        place: Place::None,
        text: "BadWords\n",
    },
    Said {
        code: ErrorCode::NotFound,
        place: Place::Edit(1),
        text: "NotFound in edit 1\n",
    },
    Said {
        code: ErrorCode::TypeUnmatched,
        place: Place::Edit(0),
        text: "TypeUnmatched in edit 0\n",
    },
];

#[test]
fn texts_of_refusals(rt: HostRuntime) {
    each_holds(&rt, rt.alloc(), SAID);
}
