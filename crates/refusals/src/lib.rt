// Why a call is refused, and the number that C, the programs and docs/refusals.md give each reason.
#![tactic(auto)]

ghost use Rattle.std.specs.Prelude.{◌≡◌};
ghost use Rattle.refusals.specs.Numbers.{number};

#[derive(Clone, Copy, Debug, PartialEq, Eq)]
pub enum Refusal {
    // of a fleet book
    BookLength = 1,
    BookLetters = 2,
    BookBoats = 3,
    BookColumns = 4,
    BookBack = 5,
    BookValue = 6,
    // of a sheet
    SheetLength = 11,
    SheetLetters = 12,
    SheetColumns = 13,
    SheetSteps = 14,
    SheetTolerance = 15,
    SheetBack = 16,
    SheetValue = 17,
    // of a share list or a card's buffer
    ShareSlots = 21,
    CardRoom = 22,
    // of a card
    CardLength = 31,
    CardLetters = 32,
    CardCounts = 33,
    CardVerdict = 34,
    CardBack = 35,
    CardBoats = 36,
    CardShares = 37,
    CardDistance = 38,
    CardTolerance = 39,
    // of a scale's cell
    CellUnweighed = 41,
    CellReading = 42,
    CellUnit = 43,
    // of a queue
    QueueSheets = 44,
    QueueAllowance = 45,
    // of a sheet's factors and its other edition
    SheetFactors = 46,
    EditionFactors = 47,
    EditionRoom = 48,
    // of a table of shares
    TableLength = 49,
    TableShare = 50,
    TableTotal = 51,
    // of a released set
    ReleasedBoats = 52,
    // of a search to be worked over
    VerdictNotSpent = 53,
    MovesAllowed = 54,
    // of two books that are to be one
    MergedColumns = 55,
    MergedBoats = 56,
    MergedRoom = 57,
    // of a report on cards
    ReportCards = 58,
}

impl Refusal {
    // The number of a reason.
    pub fn number(self) -> u32
        ensures { result ≡ number self }
    {
        self as u32
    }
}
