// Whether files keep the layout that they have.
ghost use Rattle.std.specs.Prelude.{◌≡◌};
ghost use Rattle.mezdruk_arguments.specs.Styles.{keeps_layout as kept};

use crate::setting::Settings;
use crate::verb::Verb;

impl Settings {
    /// Returns whether the command writes each file in the layout that the file has. It does if it
    /// changes files in place and no option asks for a layout, unless it is `fmt`.
    ///
    /// ```
    /// use mezdruk_arguments::{Verb, read_arguments};
    /// use json_text::Words;
    /// let mut words = Words::new(alloc);
    /// for word in ["set", "-i", "/a", "1", "a.json"] {
    ///     words.push(word)?;
    /// }
    /// let settings = read_arguments(alloc, &words).map_err(|_| "not valid")?.settings;
    /// assert!(rt; settings.keeps_layout(Verb::Set));
    /// assert!(rt; !settings.keeps_layout(Verb::Fmt));
    /// ```
    pub fn keeps_layout(self, verb: Verb) -> bool
        ensures { result ≡ kept self verb }
    {
        match verb {
            Verb::Fmt => false,
            _ => self.in_place && self.layout.is_none(),
        }
    }
}
