// An account, and the two moves that serve all kinds.
ghost use Rattle.std.specs.Prelude.{◌≡◌};
ghost use Rattle.rules.specs.Accounts.{no_account, credited_of, plus_credit_of, charged_of, with_deposit_of, with_guarantee_of, with_newest_of};

use measures::{Cents, Day};

#[derive(Clone, Copy, Default)]
pub struct Account {
    pub arrears: Cents,
    pub credit: Cents,
    // The deposit held, its yearly rate in hundredths of a percent, and its day: all 0 while none is held, since a deposit of 0 is added and
    // shown as any other.
    pub deposit: Cents,
    pub rate: u64,
    pub deposited: Day,
    // Whether one of its guarantees is open.
    pub guarantee_open: bool,
    // The number of the account's newest entry, 0 where it has none.
    pub newest: u16,
}

// An account that an amount was credited to, what it settled, and what was left over.
#[derive(Clone, Copy)]
pub struct Credited {
    pub account: Account,
    pub settled: Cents,
    pub left: Cents,
}

impl Account {
    pub fn fresh() -> Account
        ensures { result ≡ no_account }
    {
        Account::default()
    }

    // To credit an amount: arrears fall by the smaller of the two; the rest is left over.
    #[tactic(auto, unfolding(crate::specs::Accounts::credited_of))]
    pub fn credited(mut self, amount: Cents) -> Credited
        ensures { result ≡ credited_of self amount }
    {
        let settled = amount.least(self.arrears);
        let left = amount.minus(settled);
        self.arrears = self.arrears.minus(settled);
        Credited {
            account: self,
            settled,
            left,
        }
    }

    // What is left over is added to credit.
    #[tactic(auto, unfolding(crate::specs::Accounts::plus_credit_of))]
    pub fn plus_credit(mut self, left: Cents) -> Account
        ensures { result ≡ plus_credit_of self left }
    {
        self.credit = self.credit.plus(left);
        self
    }

    // To charge an amount: credit falls by the smaller of the two; the rest is added to arrears.
    #[tactic(auto, unfolding(crate::specs::Accounts::charged_of))]
    pub fn charged(mut self, amount: Cents) -> Account
        ensures { result ≡ charged_of self amount }
    {
        let covered = amount.least(self.credit);
        self.arrears = self.arrears.plus(amount.minus(covered));
        self.credit = self.credit.minus(covered);
        self
    }

    #[tactic(auto, unfolding(crate::specs::Accounts::with_deposit_of))]
    pub fn with_deposit(mut self, deposit: Cents, rate: u64, deposited: Day) -> Account
        ensures { result ≡ with_deposit_of self deposit rate deposited }
    {
        self.deposit = deposit;
        self.rate = rate;
        self.deposited = deposited;
        self
    }

    #[tactic(auto, unfolding(crate::specs::Accounts::with_guarantee_of))]
    pub fn with_guarantee(mut self, guarantee_open: bool) -> Account
        ensures { result ≡ with_guarantee_of self guarantee_open }
    {
        self.guarantee_open = guarantee_open;
        self
    }

    #[tactic(auto, unfolding(crate::specs::Accounts::with_newest_of))]
    pub fn with_newest(mut self, newest: u16) -> Account
        ensures { result ≡ with_newest_of self newest }
    {
        self.newest = newest;
        self
    }
}
