// The refusals of loading, comparing and evaluating, and their numbers.
#![tactic(auto)]

ghost use Rattle.refusal.specs.Number.{number_of};
ghost use Rattle.std.specs.Prelude.{◌≡◌};

// Why a call is refused, in the order of the numbers. (RULES 8.1)
#[derive(Clone, Copy, Debug, PartialEq, Eq)]
pub enum Refusal {
    FileTooLong,
    MalformedLine,
    Edition,
    Count,
    NotDue,
    Reference,
    CountsDiffer,
    TooManyAnds,
    ShortTable,
    MalformedTable,
    TableOrder,
    UnknownOutput,
    Limits,
    ShortSlice,
    ShortSetting,
    SettingLength,
    SettingDigit,
    RepeatedName,
    LackedName,
}

impl From<Refusal> for u32 {
    ghost from_gives = { λ refusal number. number ≡ number_of refusal };

    fn from(refusal: Refusal) -> u32 {
        match refusal {
            Refusal::FileTooLong => 1,
            Refusal::MalformedLine => 2,
            Refusal::Edition => 3,
            Refusal::Count => 4,
            Refusal::NotDue => 5,
            Refusal::Reference => 6,
            Refusal::CountsDiffer => 7,
            Refusal::TooManyAnds => 8,
            Refusal::ShortTable => 9,
            Refusal::MalformedTable => 10,
            Refusal::TableOrder => 11,
            Refusal::UnknownOutput => 12,
            Refusal::Limits => 13,
            Refusal::ShortSlice => 14,
            Refusal::ShortSetting => 15,
            Refusal::SettingLength => 16,
            Refusal::SettingDigit => 17,
            Refusal::RepeatedName => 18,
            Refusal::LackedName => 19,
        }
    }
}
