// The numbers that turn a call back (document 01: 'Turned back, by place'), as an enum.
#![tactic(auto)]

ghost use Rattle.std.specs.Prelude.{◌≡◌};
ghost use Rattle.refusals.specs.Refusals.{refusal_number};

// Why a call is turned back. What a call checks answers `Ok(())` where nothing is against it, or the refusal.
#[derive(Clone, Copy, PartialEq, Eq, Debug)]
pub enum Refusal {
    Character,
    Line,
    Head,
    Length,
    Map,
    Term,
    Unbound,
    State,
    Rule,
    Limit,
    Buffer,
    TableShort,
    TableFails,
    Maps,
    MapRange,
    Records,
}

// The document's number of a refusal.
impl From<Refusal> for u8 {
    ghost from_gives = { λ refusal number. number ≡ refusal_number refusal };

    fn from(refusal: Refusal) -> u8 {
        match refusal {
            Refusal::Character => 1,
            Refusal::Line => 2,
            Refusal::Head => 3,
            Refusal::Length => 4,
            Refusal::Map => 5,
            Refusal::Term => 6,
            Refusal::Unbound => 7,
            Refusal::State => 8,
            Refusal::Rule => 9,
            Refusal::Limit => 10,
            Refusal::Buffer => 11,
            Refusal::TableShort => 12,
            Refusal::TableFails => 13,
            Refusal::Maps => 14,
            Refusal::MapRange => 15,
            Refusal::Records => 16,
        }
    }
}
