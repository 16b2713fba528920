// What may come next in a file.
#[derive(Clone, Copy, PartialEq, Eq, Debug)]
pub enum Expect {
    // the first header
    Start,
    // the header of another statement
    Header,
    OldBalance,
    // right behind an old balance: a movement, a new balance or a trailer
    Opened,
    // the second part of a movement, or its counterparty
    Second,
    Counterparty,
    Information,
    InformationSecond,
    InformationThird,
    // a further movement, or a new balance
    Further,
    // the first free communication of a statement
    FirstCommunication,
    Communication,
    Trailer,
    // nothing
    End,
}
