// The rules that a refusal names. Each rule has one number, one layer and one party: specs/Rules.antt is the table.
ghost use Rattle.std.specs.Prelude.{◌≡◌};
ghost use Rattle.fault.specs.Rules.{number_of, layer_of, party_of};

use crate::places::Place;

#[derive(Clone, Copy, Debug, PartialEq, Eq)]
pub enum Rule {
    // The host passed more than a call takes, or a buffer that is too small.
    TextTooLong,
    BufferTooSmall,
    // The script, word by word and by the grammar.
    NoToken,
    TokenTooLarge,
    CannotFollow,
    TooDeep,
    TooMuchCode,
    // The script's names and types.
    RepeatedName,
    NameNotFound,
    OperandMismatch,
    StatementMismatch,
    TooMany,
    // The run.
    OutOfRange,
    ZeroDivisor,
    NoCellsLeft,
    StoreNotEmpty,
    Disorder,
    // The supplied text: which of its readers refuses, then what it asks for.
    WrongHeading,
    WrongRow,
    WrongCell,
    TooManyRows,
    TooManyStrings,
    // The host called at the wrong moment.
    NotGoing,
    NotWaiting,
    NothingDue,
    // The row store.
    TooManyTables,
    WidthOutside,
    NoSuchPlace,
}

// The part of the engine that refuses.
#[derive(Clone, Copy, Debug, PartialEq, Eq)]
pub enum Layer {
    Host,
    Scan,
    Grammar,
    Schema,
    Size,
    Machine,
    Store,
    Heading,
    Row,
    Cell,
    Supply,
}

// Who can mend it.
#[derive(Clone, Copy, Debug, PartialEq, Eq)]
pub enum Party {
    Writer,
    Run,
    Supplier,
    Host,
}

// A refusal: the rule with its number and layer, and the place.
#[derive(Clone, Copy, Debug, PartialEq, Eq)]
pub struct Fault {
    pub rule: Rule,
    pub place: Place,
}

impl Rule {
    // A table and no discriminants, since three rules have the number 52.
    pub fn number(self) -> u8
        ensures { result ≡ number_of self }
    {
        match self {
            Rule::TextTooLong => 1,
            Rule::BufferTooSmall => 2,
            Rule::NoToken => 11,
            Rule::TokenTooLarge => 12,
            Rule::CannotFollow => 21,
            Rule::TooDeep => 22,
            Rule::TooMuchCode => 23,
            Rule::RepeatedName => 31,
            Rule::NameNotFound => 32,
            Rule::OperandMismatch => 33,
            Rule::StatementMismatch => 34,
            Rule::TooMany => 35,
            Rule::OutOfRange => 41,
            Rule::ZeroDivisor => 42,
            Rule::NoCellsLeft => 43,
            Rule::StoreNotEmpty => 44,
            Rule::Disorder => 45,
            Rule::WrongHeading | Rule::WrongRow | Rule::WrongCell => 52,
            Rule::TooManyRows => 53,
            Rule::TooManyStrings => 54,
            Rule::NotGoing => 61,
            Rule::NotWaiting => 62,
            Rule::NothingDue => 63,
            Rule::TooManyTables => 71,
            Rule::WidthOutside => 72,
            Rule::NoSuchPlace => 73,
        }
    }

    pub fn layer(self) -> Layer
        ensures { result ≡ layer_of self }
    {
        match self {
            Rule::NoToken | Rule::TokenTooLarge => Layer::Scan,
            Rule::CannotFollow | Rule::TooDeep => Layer::Grammar,
            Rule::RepeatedName | Rule::NameNotFound | Rule::OperandMismatch => Layer::Schema,
            Rule::StatementMismatch | Rule::TooMany => Layer::Schema,
            Rule::TooMuchCode => Layer::Size,
            Rule::OutOfRange | Rule::ZeroDivisor | Rule::Disorder => Layer::Machine,
            Rule::NoCellsLeft => Layer::Store,
            Rule::TooManyTables | Rule::WidthOutside | Rule::NoSuchPlace => Layer::Store,
            Rule::WrongHeading => Layer::Heading,
            Rule::WrongRow => Layer::Row,
            Rule::WrongCell => Layer::Cell,
            Rule::TooManyRows | Rule::TooManyStrings => Layer::Supply,
            Rule::TextTooLong | Rule::BufferTooSmall | Rule::StoreNotEmpty => Layer::Host,
            Rule::NotGoing | Rule::NotWaiting | Rule::NothingDue => Layer::Host,
        }
    }

    pub fn party(self) -> Party
        ensures { result ≡ party_of self }
    {
        match self.layer() {
            Layer::Scan | Layer::Grammar | Layer::Schema | Layer::Size => Party::Writer,
            Layer::Heading | Layer::Row | Layer::Cell | Layer::Supply => Party::Supplier,
            Layer::Host => Party::Host,
            Layer::Machine | Layer::Store => match self {
                Rule::OutOfRange | Rule::ZeroDivisor | Rule::NoCellsLeft => Party::Run,
                _ => Party::Host,
            },
        }
    }
}
