// What a reader may be asked to refuse.
ghost use Rattle.std.specs.Prelude.{◌≤◌};

/// The most levels of a value that a reader takes (RFC 8259, section 9), and whether the names of
/// each object have to differ, once they are unescaped (section 4).
///
/// ```
/// use json_text::Rules;
/// let rules = Rules::new(16, true).ok_or("too many levels")?;
/// assert_eq!(rt; (rules.depth(), rules.unique()), (16, true));
/// assert!(rt; Rules::new(1_025, false).is_none());
/// ```
#[derive(Clone, Copy, Debug)]
pub struct Rules {
    depth: u32,
    unique: bool,
    ghost most: { depth ≤ 1024 },
}

impl Rules {
    ghost use Rattle.std.specs.Prelude.{◌≡◌, ◌<◌, MatchOption};
    ghost use Rattle.json_text.specs.Ruled.{rules_of, usual_rules};

    /// Returns the rules of at most `depth` levels and names that have to differ if `unique`.
    /// Returns `None` exactly if `depth` is more than 1,024.
    pub fn new(depth: u32, unique: bool) -> Option<Rules>
        ensures { MatchOption result (1024 < depth)
            (λ r. (depth ≤ 1024) × (rules_of r ≡ record { limit = depth; unique = unique })) }
    {
        if depth > 1_024 {
            return None;
        }
        Some(Rules { depth, unique })
    }

    /// Returns the rules of at most 254 levels and names that may repeat.
    pub fn usual() -> Rules
        ensures { rules_of result ≡ usual_rules }
    {
        Rules {
            depth: 254,
            unique: false,
        }
    }

    /// Returns the most levels: `[]` has 1.
    pub fn depth(self) -> u32
        ensures depth { result ≡ (rules_of self).limit }
        ensures most { result ≤ 1024 }
    {
        self.depth
    }

    /// Returns whether the names of each object have to differ.
    pub fn unique(self) -> bool
        ensures { result ≡ (rules_of self).unique }
    {
        self.unique
    }
}
