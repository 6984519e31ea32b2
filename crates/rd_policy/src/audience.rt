ghost use Rattle.std.specs.Prelude.{◌≡◌, ◌≢◌, ◌↔◌, IsTrue, IfNone, IfSome};

/// Who makes a request.
#[derive(Clone, Copy, Debug, PartialEq, Eq, Hash)]
pub enum Audience {
    /// Anyone without a key.
    Public,
    /// A visitor of the reading room.
    Room,
    /// The museum's staff.
    Staff,
}

impl Audience {
    ghost use Rattle.rd_policy.specs.Audiences.{audience_word};

    /// The word for this audience.
    pub fn word(self) -> &'static str
        ensures { result.now ≡ audience_word self }
    {
        match self {
            Audience::Public => "public",
            Audience::Room => "room",
            Audience::Staff => "staff",
        }
    }

    /// The audience that has this word, `None` if no audience has it.
    pub fn from_word(word: &str) -> Option<Audience>
        ensures found { IfSome result (λ audience. word.now ≡ audience_word audience) }
        ensures none { IfNone result ((audience : Audience) → word.now ≢ audience_word audience) }
    {
        for audience in [Audience::Public, Audience::Room, Audience::Staff] {
            if audience.word() == word {
                return Some(audience);
            }
        }
        None
    }
}

/// A set of audiences.
#[derive(Clone, Copy, Debug, PartialEq, Eq, Hash)]
pub struct Audiences {
    /// Whether the public is in it.
    pub public: bool,
    /// Whether the reading room is in it.
    pub room: bool,
    /// Whether the staff is in it.
    pub staff: bool,
}

impl Audiences {
    ghost use Rattle.rd_policy.specs.Audiences.{IsAmong, IsEmpty};

    /// Whether an audience is in the set.
    pub fn contains(self, audience: Audience) -> bool
        ensures { IsTrue result ↔ IsAmong self audience }
    {
        match audience {
            Audience::Public => self.public,
            Audience::Room => self.room,
            Audience::Staff => self.staff,
        }
    }

    /// Whether no audience is in the set.
    pub fn is_empty(self) -> bool
        ensures { IsTrue result ↔ IsEmpty self }
    {
        !self.public && !self.room && !self.staff
    }
}
