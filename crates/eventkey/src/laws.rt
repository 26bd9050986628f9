// Laws of messages, each the contract of a function that does nothing.

ghost use Rattle.eventkey.specs.Laws.{BagsCountCopies, MessagesAreOrdered, MessagesAreRead};
ghost use Rattle.eventkey.specs.Laws.{MessagesAreCanonical, SignedAreRead, SignedAreCanonical};
ghost use Rattle.eventkey.specs.Laws.{EncodingLengths};

/// States that the order of messages is total, agrees with equality, and puts earlier times first.
pub fn law_of_order()
    ensures { MessagesAreOrdered }
{}

/// States that the numbers of copies of its messages determine a bag.
pub fn law_of_bags()
    ensures { BagsCountCopies }
{}

/// States that each message has exactly one encoding.
pub fn law_of_messages()
    ensures encoded { MessagesAreCanonical }
    ensures read { MessagesAreRead }
{}

/// States that each signed message has exactly one encoding, and how long encodings are.
pub fn law_of_signed_messages()
    ensures encoded { SignedAreCanonical }
    ensures read { SignedAreRead }
    ensures long { EncodingLengths }
{}
