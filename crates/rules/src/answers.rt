// What a posting answers.
ghost use Rattle.std.specs.Prelude.{◌≡◌};
ghost use Rattle.rules.specs.Answers.{posting_reply_of};

use entries::Refusal;
use measures::Cents;

// The four amounts of an accepted posting: arrears settled by a credit, paid out, retained, interest.
#[derive(Clone, Copy, Debug, Default, PartialEq, Eq)]
pub struct Amounts {
    pub settled: Cents,
    pub paid_out: Cents,
    pub retained: Cents,
    pub interest: Cents,
}

// An accepted posting: the entry's number, and the amounts.
#[derive(Clone, Copy, Debug, PartialEq, Eq)]
pub struct Accepted {
    pub number: u16,
    pub amounts: Amounts,
}

pub type PostingAnswer = Result<Accepted, Refusal>;

// An answer in the documents' numbers.
#[derive(Clone, Copy, Debug, Default, PartialEq, Eq)]
pub struct PostingReply {
    pub refusal: u8,
    pub number: u16,
    pub settled: u64,
    pub paid_out: u64,
    pub retained: u64,
    pub interest: u64,
}

impl From<PostingAnswer> for PostingReply {
    ghost from_gives = { λ answer reply. reply ≡ posting_reply_of answer };

    #[tactic(auto, unfolding(crate::specs::Answers::posting_reply_of))]
    fn from(answer: PostingAnswer) -> PostingReply {
        match answer {
            Err(refusal) => PostingReply {
                refusal: refusal.into(),
                ..PostingReply::default()
            },
            Ok(Accepted { number, amounts }) => PostingReply {
                refusal: 0,
                number,
                settled: amounts.settled.0,
                paid_out: amounts.paid_out.0,
                retained: amounts.retained.0,
                interest: amounts.interest.0,
            },
        }
    }
}
