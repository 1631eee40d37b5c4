// What is written before a value or a key.
ghost use Rattle.std.specs.Prelude.{◌≡◌, ◌≤◌, length};
ghost use Rattle.json_buffer.specs.Leads.{lead_bytes};

/// The byte that has to be written before the next value or key: none, a comma or a colon.
#[derive(Clone, Copy)]
pub(crate) enum Lead {
    Nothing = 0,
    Comma = 44,
    Colon = 58,
}

impl Lead {
    #[inline(always)]
    pub(crate) fn byte(self) -> u8
        ensures comma { self ≡ Lead.Comma → result ≡ 44 }
        ensures colon { self ≡ Lead.Colon → result ≡ 58 }
    {
        self as u8
    }

    #[inline(always)]
    pub(crate) fn len(self) -> usize
        ensures len { result ≡ length (lead_bytes self) }
        ensures few { result ≤ 1 }
    {
        match self {
            Lead::Nothing => 0,
            Lead::Comma | Lead::Colon => 1,
        }
    }
}
