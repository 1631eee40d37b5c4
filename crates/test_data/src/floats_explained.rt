// Floats and pairs that are refused, and what is said of them.
use crate::looks::{Row, each_holds};
use crate::repeated_names::says;
use std::alloc::Global;

// What a text is read as.
enum As {
    Doubles,
    Floats,
    Pair,
    Pairs,
}

// A text, and what is said of it: nothing if it is read.
struct Said {
    json: &'static str,
    wanted: As,
    said: &'static str,
}

impl Row for Said {
    fn text(&self) -> &'static str {
        self.json
    }

    fn holds(&self, alloc: Global) -> bool {
        match self.wanted {
            As::Doubles => says::<Vec<f64>>(alloc, self.json, self.said),
            As::Floats => says::<Vec<f32>>(alloc, self.json, self.said),
            As::Pair => says::<(f64, u8)>(alloc, self.json, self.said),
            As::Pairs => says::<Vec<(f64, u8)>>(alloc, self.json, self.said),
        }
    }
}

const ROWS: &[Said] = &[
    Said {
        json: "[1.5,\n 1e309]",
        wanted: As::Doubles,
        said: "line 2 column 2, path \"/1\": a number, where a number in the range of a double is wanted",
    },
    Said {
        json: "[1.5, -0, 1e-400]",
        wanted: As::Doubles,
        said: "",
    },
    Said {
        json: "[1e39]",
        wanted: As::Floats,
        said: "line 1 column 2, path \"/0\": a number, where a number in the range of a single-precision float is wanted",
    },
    Said {
        json: "[\"1\"]",
        wanted: As::Floats,
        said: "line 1 column 2, path \"/0\": a string, where a number in the range of a single-precision float is wanted",
    },
    Said {
        json: "[true, 300]",
        wanted: As::Pair,
        said: "line 1 column 2, path \"/0\": a boolean, where a number in the range of a double is wanted",
    },
    Said {
        json: "[1.5, null, 7]",
        wanted: As::Pair,
        said: "line 1 column 7, path \"/1\": null, where an integer from 0 to 255 is wanted",
    },
    Said {
        json: "{}",
        wanted: As::Pair,
        said: "line 1 column 1, path \"\": an object, where an array of two elements is wanted",
    },
    Said {
        json: "[[]]",
        wanted: As::Pairs,
        said: "line 1 column 2, path \"/0\": an array, where an array of two elements is wanted",
    },
    Said {
        json: "[[1.5]]",
        wanted: As::Pairs,
        said: "line 1 column 2, path \"/0\": an array, where an array of two elements is wanted",
    },
    Said {
        json: "[[1, 2],\n [1.5, 7, 8]]",
        wanted: As::Pairs,
        said: "line 2 column 2, path \"/1\": an array, where an array of two elements is wanted",
    },
    Said {
        json: "[[1.5, 7], [2, 8]]",
        wanted: As::Pairs,
        said: "",
    },
];

#[test]
fn floats_and_pairs_explained(rt: HostRuntime) {
    each_holds(&rt, rt.alloc(), ROWS);
}
