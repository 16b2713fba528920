// Which kind of record may come where, and what may come behind it.
#![tactic(auto)]

ghost use Rattle.std.specs.Prelude.{◌≡◌};
ghost use Rattle.grammar.specs.Order.{may_come, behind, behind_closing, behind_trailer, is_opened, is_first_communication, may_end};

use grammar::Expect;
use layout::Kind;

pub fn may_come(expect: Expect, kind: Kind) -> bool
    ensures { result ≡ may_come expect kind }
{
    match (expect, kind) {
        (Expect::Start | Expect::Header, Kind::Header) => true,
        (Expect::OldBalance, Kind::OldBalance) => true,
        (Expect::Opened, Kind::Movement | Kind::NewBalance | Kind::Trailer) => true,
        (Expect::Second, Kind::MovementSecond | Kind::Counterparty) => true,
        (Expect::Counterparty, Kind::Counterparty) => true,
        (Expect::Information, Kind::Information) => true,
        (Expect::InformationSecond, Kind::InformationSecond) => true,
        (Expect::InformationThird, Kind::InformationThird) => true,
        (Expect::Further, Kind::Movement | Kind::NewBalance) => true,
        (Expect::FirstCommunication | Expect::Communication, Kind::FreeCommunication) => true,
        (Expect::Trailer, Kind::Trailer) => true,
        _ => false,
    }
}

// Behind a movement or information record, of which `continued` is the next part.
pub fn behind(next: bool, link: bool, continued: Expect) -> Expect
    ensures { result ≡ behind next link continued }
{
    if link {
        Expect::Information
    } else if next {
        continued
    } else {
        Expect::Further
    }
}

// Behind a new balance or a free communication.
pub fn behind_closing(link: bool, communication: Expect) -> Expect
    ensures { result ≡ behind_closing link communication }
{
    if link { communication } else { Expect::Trailer }
}

pub fn behind_trailer(another: bool) -> Expect
    ensures { result ≡ behind_trailer another }
{
    if another { Expect::Header } else { Expect::End }
}

// The three tests below are functions and no bare ==, since their clauses say which place the rules mean.

// Right behind an old balance.
pub fn is_opened(expect: Expect) -> bool
    ensures { result ≡ is_opened expect }
{
    expect == Expect::Opened
}

pub fn is_first_communication(expect: Expect) -> bool
    ensures { result ≡ is_first_communication expect }
{
    expect == Expect::FirstCommunication
}

pub fn may_end(expect: Expect) -> bool
    ensures { result ≡ may_end expect }
{
    expect == Expect::End
}
