// What an entry of each kind does to its account and to the entry that it names.
#![tactic(auto)]

ghost use Rattle.std.specs.Prelude.{◌≡◌};
ghost use Rattle.changes.specs.Changes.{alone_of, naming_of, contribution_of, added_customer_of, bill_of, payment_of, deposit_of, deposit_return_of, expiry_of, correction_of, guarantee_of, reduction_of, retention_of, late_charge_of, own_change_of, naming_change_of, own_decision_of, naming_decision_of};

use entries::{Data, Entry, Incoming, Kind, Raw, Refusal};
use measures::{Cents, Day, Metres};
use rules::{
    Account, Amounts, Credited, billed, check_naming, check_own, given_back, interest, refund,
};

// An entry, and its place in the book's array.
#[derive(Clone, Copy)]
pub struct Link {
    pub place: usize,
    pub entry: Entry,
}

#[derive(Clone, Copy)]
pub struct Change {
    pub account: Account,
    // The new entry's data.
    pub data: Data,
    // The named entry afterwards.
    pub named: Option<Link>,
    pub amounts: Amounts,
}

// What an entry does, or its refusal.
pub type Decision = Result<Change, Refusal>;

impl Change {
    // Of an entry that names nothing.
    fn alone(account: Account, data: Data, amounts: Amounts) -> Change
        ensures { result ≡ alone_of account «data» amounts }
    {
        Change {
            account,
            data,
            named: None,
            amounts,
        }
    }

    // Of one that names the entry of a link, whose data are `after` then.
    fn naming(account: Account, data: Data, link: Link, after: Data, amounts: Amounts) -> Change
        ensures { result ≡ naming_of account «data» link after amounts }
    {
        let named = Link {
            entry: link.entry.with(after),
            ..link
        };
        Change {
            account,
            data,
            named: Some(named),
            amounts,
        }
    }
}

// 1: held = amount.
#[tactic(auto, unfolding(crate::specs::Changes::contribution_of))]
fn contribution(raw: Raw, account: Account) -> Change
    ensures { result ≡ contribution_of raw account }
{
    let amount = raw.cents();
    let data = Data::Contribution {
        amount,
        built: Metres(raw.a),
        phases: raw.b,
        held: amount,
        to_arrears: Cents(0),
        paid_out: Cents(0),
        retained: Cents(0),
        added: 0,
        closed: false,
    };
    Change::alone(account, data, Amounts::default())
}

// 2: the refund is credited; what is left over is paid out.
#[tactic(auto, unfolding(crate::specs::Changes::added_customer_of))]
fn added_customer(raw: Raw, account: Account, link: Link) -> Change
    ensures { result ≡ added_customer_of raw account link }
{
    let named = link.entry.data;
    let back = refund(named.particulars(), Metres(raw.a));
    let Credited {
        account,
        settled,
        left,
    } = account.credited(back);
    let data = Data::AddedCustomer {
        named: raw.named(),
        shared: Metres(raw.a),
        phases: raw.b,
    };
    let amounts = Amounts {
        settled,
        paid_out: left,
        ..Amounts::default()
    };
    let after = named.refunded(back, settled, left);
    Change::naming(account, data, link, after, amounts)
}

// 3: billed is charged.
#[tactic(auto, unfolding(crate::specs::Changes::bill_of))]
fn bill(raw: Raw, account: Account) -> Change
    ensures { result ≡ bill_of raw account }
{
    let charge = raw.cents();
    let standing = billed(charge, raw.b, raw.a);
    let data = Data::Bill {
        charge,
        period: raw.a,
        served: raw.b,
        standing,
        corrected: false,
    };
    Change::alone(account.charged(standing), data, Amounts::default())
}

// 4: credited; what is left over is added to credit.
#[tactic(auto, unfolding(crate::specs::Changes::payment_of))]
fn payment(raw: Raw, account: Account) -> Change
    ensures { result ≡ payment_of raw account }
{
    let amount = raw.cents();
    let Credited {
        account,
        settled,
        left,
    } = account.credited(amount);
    let data = Data::Payment {
        amount,
        standing: amount,
        corrected: false,
    };
    let amounts = Amounts {
        settled,
        ..Amounts::default()
    };
    Change::alone(account.plus_credit(left), data, amounts)
}

// 5: deposit held = amount.
#[tactic(auto, unfolding(crate::specs::Changes::deposit_of))]
fn deposit(raw: Raw, account: Account) -> Change
    ensures { result ≡ deposit_of raw account }
{
    let amount = raw.cents();
    let rate = raw.a;
    let after = account.with_deposit(amount, u64::from(rate), Day(raw.day));
    Change::alone(after, Data::Deposit { amount, rate }, Amounts::default())
}

// 6: deposit and interest are credited together; what is left over is paid out; deposit held = 0.
#[tactic(auto, unfolding(crate::specs::Changes::deposit_return_of))]
fn deposit_return(raw: Raw, account: Account) -> Change
    ensures { result ≡ deposit_return_of raw account }
{
    let days = Day(raw.day).since(account.deposited);
    let interest = interest(account.deposit, account.rate, days);
    let Credited {
        account,
        settled,
        left,
    } = account.credited(account.deposit.plus(interest));
    let amounts = Amounts {
        settled,
        paid_out: left,
        interest,
        ..Amounts::default()
    };
    let after = account.with_deposit(Cents(0), 0, Day(0));
    Change::alone(after, Data::DepositReturn, amounts)
}

// 7: retained = held; held = 0; the contribution is closed.
#[tactic(auto, unfolding(crate::specs::Changes::expiry_of))]
fn expiry(raw: Raw, account: Account, link: Link) -> Change
    ensures { result ≡ expiry_of raw account link }
{
    let named = link.entry.data;
    let data = Data::Expiry(raw.named());
    let amounts = Amounts {
        retained: named.particulars().held,
        ..Amounts::default()
    };
    Change::naming(account, data, link, named.expired(), amounts)
}

// 8: a bill that grows, or a payment that shrinks, charges the difference; the others credit it, what is left over going to credit.
#[tactic(auto, unfolding(crate::specs::Changes::correction_of))]
fn correction(raw: Raw, account: Account, link: Link) -> Change
    ensures { result ≡ correction_of raw account link }
{
    let amount = raw.cents();
    let named = link.entry.data;
    let particulars = named.particulars();
    let up = amount.minus(particulars.standing);
    let down = particulars.standing.minus(amount);
    let (charge, credit) = if particulars.kind == Kind::Bill {
        (up, down)
    } else {
        (down, up)
    };
    let Credited {
        account,
        settled,
        left,
    } = account.charged(charge).credited(credit);
    let data = Data::Correction {
        named: raw.named(),
        amount,
    };
    let amounts = Amounts {
        settled,
        ..Amounts::default()
    };
    let after = named.restated(amount);
    Change::naming(account.plus_credit(left), data, link, after, amounts)
}

// 9: guarantee held = amount; one is open.
#[tactic(auto, unfolding(crate::specs::Changes::guarantee_of))]
fn guarantee(raw: Raw, account: Account) -> Change
    ensures { result ≡ guarantee_of raw account }
{
    let amount = raw.cents();
    let data = Data::Guarantee {
        closed: false,
        reduced: Day(raw.day),
        amount,
        held: amount,
    };
    Change::alone(account.with_guarantee(true), data, Amounts::default())
}

// 10: what is given back is credited; what is left over is paid out. `paid` is the sum of the payments in the reduction's window.
#[tactic(auto, unfolding(crate::specs::Changes::reduction_of))]
fn reduction(raw: Raw, account: Account, paid: Cents, link: Link) -> Change
    ensures { result ≡ reduction_of raw account paid link }
{
    let named = link.entry.data;
    let back = given_back(named.particulars().guarantee_held, paid);
    let Credited {
        account,
        settled,
        left,
    } = account.credited(back);
    let data = Data::Reduction(raw.named());
    let amounts = Amounts {
        settled,
        paid_out: left,
        ..Amounts::default()
    };
    let after = named.reduced(back, Day(raw.day));
    Change::naming(account, data, link, after, amounts)
}

// 11: the rest is retained; held = 0; the guarantee is closed, and none is open.
#[tactic(auto, unfolding(crate::specs::Changes::retention_of))]
fn retention(raw: Raw, account: Account, link: Link) -> Change
    ensures { result ≡ retention_of raw account link }
{
    let named = link.entry.data;
    let data = Data::Retention(raw.named());
    let amounts = Amounts {
        retained: named.particulars().guarantee_held,
        ..Amounts::default()
    };
    let after = account.with_guarantee(false);
    Change::naming(after, data, link, named.retained(), amounts)
}

// 12: the amount is charged.
#[tactic(auto, unfolding(crate::specs::Changes::late_charge_of))]
fn late_charge(raw: Raw, account: Account) -> Change
    ensures { result ≡ late_charge_of raw account }
{
    let amount = raw.cents();
    Change::alone(
        account.charged(amount),
        Data::LateCharge(amount),
        Amounts::default(),
    )
}

// What an entry that names nothing does: of kind 1, 3, 4, 5, 9, 12 or else 6.
#[tactic(auto, unfolding(crate::specs::Changes::own_change_of))]
fn own_change(incoming: Incoming, account: Account) -> Change
    ensures { result ≡ own_change_of incoming.raw incoming.kind account }
{
    let Incoming { raw, kind } = incoming;
    match kind {
        Kind::Contribution => contribution(raw, account),
        Kind::Bill => bill(raw, account),
        Kind::Payment => payment(raw, account),
        Kind::Deposit => deposit(raw, account),
        Kind::Guarantee => guarantee(raw, account),
        Kind::LateCharge => late_charge(raw, account),
        _ => deposit_return(raw, account),
    }
}

// What an entry does that names the one of a link: of kind 2, 7, 10, 11 or else 8. `paid` is the sum of the payments in a
// reduction's window.
#[tactic(auto, unfolding(crate::specs::Changes::naming_change_of))]
fn naming_change(incoming: Incoming, account: Account, paid: Cents, link: Link) -> Change
    ensures { result ≡ naming_change_of incoming.raw incoming.kind account paid link }
{
    let Incoming { raw, kind } = incoming;
    match kind {
        Kind::AddedCustomer => added_customer(raw, account, link),
        Kind::Expiry => expiry(raw, account, link),
        Kind::Reduction => reduction(raw, account, paid, link),
        Kind::Retention => retention(raw, account, link),
        _ => correction(raw, account, link),
    }
}

// The refusal of an entry that names nothing, or what it does.
#[tactic(auto, unfolding(entries::specs::Refusals::decided_of, crate::specs::Changes::own_decision_of))]
pub fn own_decision(incoming: Incoming, account: Account) -> Decision
    ensures { result ≡ own_decision_of incoming.raw incoming.kind account }
{
    check_own(incoming, account)?;
    Ok(own_change(incoming, account))
}

// The refusal of an entry that names the one of a link, or what it does.
#[tactic(auto, unfolding(entries::specs::Refusals::decided_of, crate::specs::Changes::naming_decision_of))]
pub fn naming_decision(incoming: Incoming, account: Account, paid: Cents, link: Link) -> Decision
    ensures { result ≡ naming_decision_of incoming.raw incoming.kind account paid link }
{
    check_naming(incoming, link.entry)?;
    Ok(naming_change(incoming, account, paid, link))
}
