// What `TYPE` answers (Redis, "TYPE").
ghost use Rattle.std.specs.Prelude.{◌≡◌};
ghost use Rattle.sk_resp.specs.Kind.{kind_text};

/// What a key holds.
#[derive(Clone, Copy)]
pub enum Kind {
    /// `none`: there is no such key.
    Absent,
    /// `string`
    String,
    /// `list`
    List,
    /// `set`
    Set,
    /// `hash`
    Hash,
    /// `zset`: a sorted set
    Sorted,
}

impl Kind {
    /// The line that tells a client of it, without CR and LF.
    pub fn text(self) -> &'static [u8]
        ensures { result.now ≡ kind_text self }
    {
        match self {
            Kind::Absent => b"+none",
            Kind::String => b"+string",
            Kind::List => b"+list",
            Kind::Set => b"+set",
            Kind::Hash => b"+hash",
            Kind::Sorted => b"+zset",
        }
    }
}
