// The type of an amount of money.
ghost use Rattle.std.specs.Prelude.{◌≡◌, true};
ghost use Rattle.values.specs.Money.{is_amount};

mod methods;

// An amount of at most fifteen digits, in thousandths, negative for a debit.
#[derive(Clone, Copy, PartialEq, Eq, Debug)]
pub struct Money {
    thousandths: i64,
    ghost few: { is_amount thousandths ≡ true },
}
