// What holds of days and of money, each law on the contract of a function that does nothing.
ghost use Rattle.values.specs.Days.{DaysAreOrdered, DaysExamples};
ghost use Rattle.values.specs.Held.{ValuesHold};
ghost use Rattle.values.specs.Money.{MoneyReadsBack, MoneyExamples};

// The order of days is total.
pub fn days_are_ordered()
    ensures { DaysAreOrdered }
{}

// Some days and their order, computed.
pub fn days_examples()
    ensures { DaysExamples }
{}

// Money is read back as it was written.
pub fn money_reads_back()
    ensures { MoneyReadsBack }
{}

// Some amounts, computed.
pub fn money_examples()
    ensures { MoneyExamples }
{}

// A Day holds a day and a Money an amount, and what they hold tells them apart.
pub fn values_hold()
    ensures { ValuesHold }
{}
