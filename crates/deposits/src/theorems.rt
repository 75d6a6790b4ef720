// What two sheets mean to somebody who has nothing else.
ghost use Rattle.deposits.specs.Theorems.{SheetsAgree};

// Two sheets of one chain are equal, byte for byte, exactly when the sets are, whatever stores they were written from.
pub fn sheets_agree() -> bool
    ensures { SheetsAgree }
{
    true
}
