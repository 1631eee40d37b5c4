// What is refused by rules, and where.
use crate::looks::{Refused, Row, each_holds, refused_at};
use json_doc::read_document_with;
use json_text::{ErrorCode, Rules};
use std::alloc::Global;

// A text with a number of levels and whether names have to differ, and how it is refused.
struct Ruled {
    text: &'static str,
    depth: u32,
    unique: bool,
    refused: Refused,
}

// What is refused by rules, and at which offset. A text that is not read has no offset.
fn refused_by(alloc: Global, text: &str, rules: Rules) -> Refused {
    if text.len() >= 1000 {
        return Some((ErrorCode::TooLarge, None));
    }
    refused_at(read_document_with(alloc, text, rules))
}

impl Row for Ruled {
    fn text(&self) -> &'static str {
        self.text
    }

    fn holds(&self, alloc: Global) -> bool {
        match Rules::new(self.depth, self.unique) {
            Some(rules) => refused_by(alloc, self.text, rules) == self.refused,
            None => false,
        }
    }
}

const TWICE: Refused = Some((ErrorCode::DuplicateKey, Some(7)));

const NAMES: &[Ruled] = &[
    Ruled {
        text: "{\"a\":1,\"b\":2,\"\\u0061\":3}",
        depth: 254,
        unique: true,
        refused: Some((ErrorCode::DuplicateKey, Some(13))),
    },
    Ruled {
        text: "{\"a\":{\"a\":1}}",
        depth: 254,
        unique: true,
        refused: None,
    },
    Ruled {
        text: "{\"a\":{\"b\":1},\"c\":{\"b\":2},\"b\":3}",
        depth: 254,
        unique: true,
        refused: None,
    },
    Ruled {
        text: "{\"a\":1,\"a\":}",
        depth: 254,
        unique: true,
        refused: TWICE,
    },
    Ruled {
        text: "{\"a\":1,\"a",
        depth: 254,
        unique: true,
        refused: Some((ErrorCode::EofWhileParsing, Some(9))),
    },
    Ruled {
        text: "[[[[[[{\"a\":1,\"a\":",
        depth: 254,
        unique: true,
        refused: Some((ErrorCode::DuplicateKey, Some(13))),
    },
    Ruled {
        text: "{\"a\":1,\"a\":[]}",
        depth: 254,
        unique: true,
        refused: TWICE,
    },
];

// Twenty names of one byte.
const TWENTY: &str =
    "{\"a\":0,\"b\":0,\"c\":0,\"d\":0,\"e\":0,\"f\":0,\"g\":0,\"h\":0,\"i\":0,\"j\":0,\
        \"k\":0,\"l\":0,\"m\":0,\"n\":0,\"o\":0,\"p\":0,\"q\":0,\"r\":0,\"\\u0073\":0,\"t\":0,";

// A name after twenty others, and how it is refused.
struct AfterTwenty {
    rest: &'static str,
    refused: Refused,
}

impl Row for AfterTwenty {
    fn text(&self) -> &'static str {
        self.rest
    }

    fn holds(&self, alloc: Global) -> bool {
        let text = format!(in alloc; "{TWENTY}{}", self.rest);
        match (text, Rules::new(254, true)) {
            (Ok(text), Some(rules)) => refused_by(alloc, text.as_str(), rules) == self.refused,
            _ => false,
        }
    }
}

const AFTER_TWENTY: &[AfterTwenty] = &[
    AfterTwenty {
        rest: "\"u\":0}",
        refused: None,
    },
    AfterTwenty {
        rest: "\"c\":0}",
        refused: Some((ErrorCode::DuplicateKey, Some(126))),
    },
    AfterTwenty {
        rest: "\"r\":0}",
        refused: Some((ErrorCode::DuplicateKey, Some(126))),
    },
    AfterTwenty {
        rest: "\"s\":0}",
        refused: Some((ErrorCode::DuplicateKey, Some(126))),
    },
    AfterTwenty {
        rest: "\"\\u0074\":0}",
        refused: Some((ErrorCode::DuplicateKey, Some(126))),
    },
];

#[test]
fn names_that_differ(rt: HostRuntime) {
    each_holds(&rt, rt.alloc(), NAMES);
    each_holds(&rt, rt.alloc(), AFTER_TWENTY);
}

const REPETITIONS: &[Ruled] = &[
    Ruled {
        text: "{\"a\":1,\"a\":2}",
        depth: 254,
        unique: false,
        refused: None,
    },
    Ruled {
        text: "{\"a\":1,\"a\":}",
        depth: 254,
        unique: false,
        refused: Some((ErrorCode::InvalidJsonValue, Some(11))),
    },
    Ruled {
        text: "[[[[[[{\"a\":1,\"a\":",
        depth: 254,
        unique: false,
        refused: Some((ErrorCode::EofWhileParsing, Some(17))),
    },
];

#[test]
fn names_that_may_repeat(rt: HostRuntime) {
    each_holds(&rt, rt.alloc(), REPETITIONS);
}

const LEVELS: &[Ruled] = &[
    Ruled {
        text: "[]",
        depth: 0,
        unique: false,
        refused: Some((ErrorCode::RecursionLimitExceeded, Some(0))),
    },
    Ruled {
        text: "1",
        depth: 0,
        unique: false,
        refused: None,
    },
    Ruled {
        text: "[[1],{}]",
        depth: 2,
        unique: false,
        refused: None,
    },
    Ruled {
        text: "[[1],{}]",
        depth: 1,
        unique: false,
        refused: Some((ErrorCode::RecursionLimitExceeded, Some(1))),
    },
    Ruled {
        text: "[{\"a\":1,\"a\":2}]",
        depth: 1,
        unique: true,
        refused: Some((ErrorCode::RecursionLimitExceeded, Some(1))),
    },
    Ruled {
        text: "{\"a\":1,\"a\":[]}",
        depth: 1,
        unique: true,
        refused: TWICE,
    },
];

#[test]
fn a_chosen_number_of_levels(rt: HostRuntime) {
    each_holds(&rt, rt.alloc(), LEVELS);
    assert!(rt; Rules::new(1_025, false).is_none());
}
