// Tuples of two to eight elements: what is written of those that are read, and what is said of the
// texts and values that are refused.
use crate::drawing::Drawing;
use crate::looks::{Row, each_holds, holds, is_pretty, is_value, is_written, read};
use crate::repeated_names::{is_shown, says};
use json_data::Deserialize;
use json_explain::from_value;
use json_write::Serialize;
use std::alloc::Global;
use std::collections::BTreeMap;
use test_fixtures::value_of;

type Two = (u8, String);

type Three = (u8, bool, String);

type Four = (i8, Option<u8>, char, ());

type Five = (u8, u8, u8, u8, u8);

type Six = (u8, u8, u8, u8, u8, bool);

type Seven = (u8, u8, u8, u8, u8, u8, bool);

type Eight = (u8, u8, u8, u8, u8, u8, u8, String);

type Nested = ((u8, u8), Vec<(u8, u8, u8)>);

type Named = BTreeMap<String, (u8, u8, u8)>;

type Optional = Option<(u8, u8, u8)>;

// What a text is read as.
enum As {
    Two,
    Three,
    Four,
    Five,
    Six,
    Seven,
    Eight,
    Nested,
    Named,
    Optional,
    Drawing,
}

// Whether a value is read of the text and written as `written`.
fn is_copied<'a, T: Deserialize<'a> + Serialize + Drop>(
    alloc: Global,
    json: &'a str,
    written: &str,
) -> bool {
    match read::<T>(alloc, json) {
        Ok(value) => holds(is_written(alloc, &value, written)),
        Err(_) => false,
    }
}

// A text, and what is written of the value that is read of it.
struct Copied {
    json: &'static str,
    wanted: As,
    written: &'static str,
}

impl Row for Copied {
    fn text(&self) -> &'static str {
        self.json
    }

    fn holds(&self, alloc: Global) -> bool {
        let (json, written) = (self.json, self.written);
        match self.wanted {
            As::Two => is_copied::<Two>(alloc, json, written),
            As::Three => is_copied::<Three>(alloc, json, written),
            As::Four => is_copied::<Four>(alloc, json, written),
            As::Five => is_copied::<Five>(alloc, json, written),
            As::Six => is_copied::<Six>(alloc, json, written),
            As::Seven => is_copied::<Seven>(alloc, json, written),
            As::Eight => is_copied::<Eight>(alloc, json, written),
            As::Nested => is_copied::<Nested>(alloc, json, written),
            As::Named => is_copied::<Named>(alloc, json, written),
            As::Optional => is_copied::<Optional>(alloc, json, written),
            As::Drawing => is_copied::<Drawing>(alloc, json, written),
        }
    }
}

const COPIES: &[Copied] = &[
    Copied {
        json: "[7,\"a\"]",
        wanted: As::Two,
        written: "[7,\"a\"]",
    },
    Copied {
        json: " [ 7 , \"\\u0061\" ]\n",
        wanted: As::Two,
        written: "[7,\"a\"]",
    },
    Copied {
        json: "[255,true,\"é\\n\"]",
        wanted: As::Three,
        written: "[255,true,\"é\\n\"]",
    },
    Copied {
        json: "[0, false, \"\"]",
        wanted: As::Three,
        written: "[0,false,\"\"]",
    },
    Copied {
        json: "[-128,null,\"é\",null]",
        wanted: As::Four,
        written: "[-128,null,\"é\",null]",
    },
    Copied {
        json: "[127,7,\"\\\"\",null]",
        wanted: As::Four,
        written: "[127,7,\"\\\"\",null]",
    },
    Copied {
        json: "[1,2,3,4,5]",
        wanted: As::Five,
        written: "[1,2,3,4,5]",
    },
    Copied {
        json: "[1,2,3,4,5,false]",
        wanted: As::Six,
        written: "[1,2,3,4,5,false]",
    },
    Copied {
        json: "[1,2,3,4,5,6,true]",
        wanted: As::Seven,
        written: "[1,2,3,4,5,6,true]",
    },
    Copied {
        json: "[1,2,3,4,5,6,7,\"8\"]",
        wanted: As::Eight,
        written: "[1,2,3,4,5,6,7,\"8\"]",
    },
    Copied {
        json: "[[1,2],[]]",
        wanted: As::Nested,
        written: "[[1,2],[]]",
    },
    Copied {
        json: "[[1,2],[[3,4,5],[6,7,8]]]",
        wanted: As::Nested,
        written: "[[1,2],[[3,4,5],[6,7,8]]]",
    },
    Copied {
        json: "{}",
        wanted: As::Named,
        written: "{}",
    },
    Copied {
        json: "{\"b\":[4,5,6],\"a\":[1,2,3]}",
        wanted: As::Named,
        written: "{\"a\":[1,2,3],\"b\":[4,5,6]}",
    },
    Copied {
        json: "null",
        wanted: As::Optional,
        written: "null",
    },
    Copied {
        json: "[1,2,3]",
        wanted: As::Optional,
        written: "[1,2,3]",
    },
    Copied {
        json: "{\"pixels\":[[0,0,255,0,0],[1,0,0,0,255]],\"size\":[2,1]}",
        wanted: As::Drawing,
        written: "{\"size\":[2,1],\"pixels\":[[0,0,255,0,0],[1,0,0,0,255]],\"title\":null}",
    },
    Copied {
        json: "{\"size\":[0,0],\"pixels\":[],\"title\":[\"é\",false,\"e\"]}",
        wanted: As::Drawing,
        written: "{\"size\":[0,0],\"pixels\":[],\"title\":[\"é\",false,\"e\"]}",
    },
];

#[test]
fn tuples_are_written_as_they_are_read(rt: HostRuntime) {
    each_holds(&rt, rt.alloc(), COPIES);
}

// A text, and what is said of it: nothing if it is read.
struct Said {
    json: &'static str,
    wanted: As,
    said: &'static str,
}

impl Row for Said {
    fn text(&self) -> &'static str {
        self.json
    }

    fn holds(&self, alloc: Global) -> bool {
        let (json, said) = (self.json, self.said);
        match self.wanted {
            As::Two => says::<Two>(alloc, json, said),
            As::Three => says::<Three>(alloc, json, said),
            As::Four => says::<Four>(alloc, json, said),
            As::Five => says::<Five>(alloc, json, said),
            As::Six => says::<Six>(alloc, json, said),
            As::Seven => says::<Seven>(alloc, json, said),
            As::Eight => says::<Eight>(alloc, json, said),
            As::Nested => says::<Nested>(alloc, json, said),
            As::Named => says::<Named>(alloc, json, said),
            As::Optional => says::<Optional>(alloc, json, said),
            As::Drawing => says::<Drawing>(alloc, json, said),
        }
    }
}

const OTHER_LENGTHS: &[Said] = &[
    Said {
        json: "[1]",
        wanted: As::Two,
        said: "line 1 column 1, path \"\": an array, where an array of two elements is wanted",
    },
    Said {
        json: "[1,\"a\",2]",
        wanted: As::Two,
        said: "line 1 column 1, path \"\": an array, where an array of two elements is wanted",
    },
    Said {
        json: "[1,true]",
        wanted: As::Three,
        said: "line 1 column 1, path \"\": an array, where an array of three elements is wanted",
    },
    Said {
        json: "[1,true,\"a\",{\"b\":[1,\n2]}]",
        wanted: As::Three,
        said: "line 1 column 1, path \"\": an array, where an array of three elements is wanted",
    },
    Said {
        json: "[1,null,\"a\"]",
        wanted: As::Four,
        said: "line 1 column 1, path \"\": an array, where an array of four elements is wanted",
    },
    Said {
        json: "[1,null,\"a\",null,null]",
        wanted: As::Four,
        said: "line 1 column 1, path \"\": an array, where an array of four elements is wanted",
    },
    Said {
        json: "[1,2,3,4]",
        wanted: As::Five,
        said: "line 1 column 1, path \"\": an array, where an array of five elements is wanted",
    },
    Said {
        json: "[1,2,3,4,5,6]",
        wanted: As::Five,
        said: "line 1 column 1, path \"\": an array, where an array of five elements is wanted",
    },
    Said {
        json: "[1,2,3,4,5]",
        wanted: As::Six,
        said: "line 1 column 1, path \"\": an array, where an array of six elements is wanted",
    },
    Said {
        json: "[1,2,3,4,5,true,7]",
        wanted: As::Six,
        said: "line 1 column 1, path \"\": an array, where an array of six elements is wanted",
    },
    Said {
        json: "[1,2,3,4,5,6]",
        wanted: As::Seven,
        said: "line 1 column 1, path \"\": an array, where an array of seven elements is wanted",
    },
    Said {
        json: "[1,2,3,4,5,6,true,8]",
        wanted: As::Seven,
        said: "line 1 column 1, path \"\": an array, where an array of seven elements is wanted",
    },
    Said {
        json: "[1,2,3,4,5,6,7]",
        wanted: As::Eight,
        said: "line 1 column 1, path \"\": an array, where an array of eight elements is wanted",
    },
    Said {
        json: "[1,2,3,4,5,6,7,\"8\",9]",
        wanted: As::Eight,
        said: "line 1 column 1, path \"\": an array, where an array of eight elements is wanted",
    },
    Said {
        json: "[]",
        wanted: As::Three,
        said: "line 1 column 1, path \"\": an array, where an array of three elements is wanted",
    },
    Said {
        json: "[[1,2,3],[]]",
        wanted: As::Nested,
        said: "line 1 column 2, path \"/0\": an array, where an array of two elements is wanted",
    },
    Said {
        json: "[[1,2],[[3,4,5],[6,7]]]",
        wanted: As::Nested,
        said: "line 1 column 17, path \"/1/1\": an array, where an array of three elements is wanted",
    },
    Said {
        json: "{\"a\":[1,2,3],\n\"b\":[4,5]}",
        wanted: As::Named,
        said: "line 2 column 5, path \"/b\": an array, where an array of three elements is wanted",
    },
    Said {
        json: "[1,2]",
        wanted: As::Optional,
        said: "line 1 column 1, path \"\": an array, where an array of three elements is wanted",
    },
    Said {
        json: "{\"size\":[2,1,0]}",
        wanted: As::Drawing,
        said: "line 1 column 9, path \"/size\": an array, where an array of two elements is wanted",
    },
    Said {
        json: "{\"size\":[2,1],\"pixels\":[\n[0,0,255,0]]}",
        wanted: As::Drawing,
        said: "line 2 column 1, path \"/pixels/0\": an array, where an array of five elements is wanted",
    },
];

#[test]
fn arrays_of_another_length(rt: HostRuntime) {
    each_holds(&rt, rt.alloc(), OTHER_LENGTHS);
}

const OTHER_VALUES: &[Said] = &[
    Said {
        json: "[256]",
        wanted: As::Three,
        said: "line 1 column 2, path \"/0\": a number, where an integer from 0 to 255 is wanted",
    },
    Said {
        json: "[1,2]",
        wanted: As::Three,
        said: "line 1 column 4, path \"/1\": a number, where true or false is wanted",
    },
    Said {
        json: "[1,true,\n 2]",
        wanted: As::Three,
        said: "line 2 column 2, path \"/2\": a number, where a string is wanted",
    },
    Said {
        json: "[null,true,\"a\",4]",
        wanted: As::Three,
        said: "line 1 column 2, path \"/0\": null, where an integer from 0 to 255 is wanted",
    },
    Said {
        json: "[1,-1,\"a\",null]",
        wanted: As::Four,
        said: "line 1 column 4, path \"/1\": a number, where an integer from 0 to 255 is wanted",
    },
    Said {
        json: "[1,null,\"ab\",null]",
        wanted: As::Four,
        said: "line 1 column 9, path \"/2\": a string, where a string of one character is wanted",
    },
    Said {
        json: "[1,null,\"a\",0]",
        wanted: As::Four,
        said: "line 1 column 13, path \"/3\": a number, where null is wanted",
    },
    Said {
        json: "[1,2,3,4,5.0]",
        wanted: As::Five,
        said: "line 1 column 10, path \"/4\": a number, where an integer from 0 to 255 is wanted",
    },
    Said {
        json: "[1,2,3,4,5,\"6\"]",
        wanted: As::Six,
        said: "line 1 column 12, path \"/5\": a string, where true or false is wanted",
    },
    Said {
        json: "[1,2,3,4,5,6,null]",
        wanted: As::Seven,
        said: "line 1 column 14, path \"/6\": null, where true or false is wanted",
    },
    Said {
        json: "[1,2,3,4,5,6,7,8]",
        wanted: As::Eight,
        said: "line 1 column 16, path \"/7\": a number, where a string is wanted",
    },
    Said {
        json: "[[1,2],[[3,4,true]]]",
        wanted: As::Nested,
        said: "line 1 column 14, path \"/1/0/2\": a boolean, where an integer from 0 to 255 is wanted",
    },
    Said {
        json: "{}",
        wanted: As::Two,
        said: "line 1 column 1, path \"\": an object, where an array of two elements is wanted",
    },
    Said {
        json: " null",
        wanted: As::Three,
        said: "line 1 column 2, path \"\": null, where an array of three elements is wanted",
    },
    Said {
        json: "\"abc\"",
        wanted: As::Three,
        said: "line 1 column 1, path \"\": a string, where an array of three elements is wanted",
    },
    Said {
        json: "7",
        wanted: As::Eight,
        said: "line 1 column 1, path \"\": a number, where an array of eight elements is wanted",
    },
    Said {
        json: "{\"a\":true}",
        wanted: As::Named,
        said: "line 1 column 6, path \"/a\": a boolean, where an array of three elements is wanted",
    },
    Said {
        json: "{}",
        wanted: As::Optional,
        said: "line 1 column 1, path \"\": an object, where an array of three elements is wanted",
    },
    Said {
        json: "{\"size\":[2,1],\"pixels\":[[0,0,255,0,-1]]}",
        wanted: As::Drawing,
        said: "line 1 column 36, path \"/pixels/0/4\": a number, where an integer from 0 to 255 is wanted",
    },
];

#[test]
fn values_that_are_no_element(rt: HostRuntime) {
    each_holds(&rt, rt.alloc(), OTHER_VALUES);
}

// Whether this is said of a value that is read as a tuple of three.
fn value_says(alloc: Global, json: &str, said: &str) -> bool {
    let value = match value_of(alloc, json) {
        Ok(value) => value,
        Err(_) => return false,
    };
    match from_value::<Three>(alloc, &value) {
        Ok(_) => said.is_empty(),
        Err(error) => is_shown(alloc, &error, said),
    }
}

fn values_are_explained(alloc: Global) -> bool {
    value_says(alloc, "[1,true,\"a\"]", "")
        && value_says(
            alloc,
            "[1,true]",
            "path \"\": an array, where an array of three elements is wanted",
        )
        && value_says(
            alloc,
            "[1,true,{}]",
            "path \"/2\": an object, where a string is wanted",
        )
}

#[test]
fn tuples_of_values(rt: HostRuntime) {
    let alloc = rt.alloc();
    assert!(rt; values_are_explained(alloc));
    assert!(rt; holds(is_value(alloc, &(1_u8, true, "a"), "[1,true,\"a\"]")));
    assert!(rt;
        holds(is_pretty(
            alloc,
            &(1_u8, (2_u8, 3_u8, 4_u8)),
            "[\n  1,\n  [\n    2,\n    3,\n    4\n  ]\n]"
        ))
    );
}
