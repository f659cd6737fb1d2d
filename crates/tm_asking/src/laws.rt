//! Laws of what was asked and replied at one trustee, for every kind: how a session's messages add up.
//!
//! Nothing here runs: each function states a law.
ghost use Rattle.tm_asking.specs.Laws.{AllJoin, SomeJoin, AllAreSome, SomeAreAll, QuestionsJoin};

use tm_seq::Entrusted;

/// Where all requests of one message and then all of another were asked and replied, all of both were, in order.
pub fn all_join<S: Entrusted>()
    ensures { AllJoin S S.Op S.Reply S.Task }
{}

/// So too where the other message's were as far as it came.
pub fn some_join<S: Entrusted>()
    ensures { SomeJoin S S.Op S.Reply S.Task }
{}

/// What was asked and replied whole is the first part of more.
pub fn all_are_some<S: Entrusted>()
    ensures { AllAreSome S S.Op S.Reply S.Task }
{}

/// Where each of some requests has a reply, all of them were asked, and nothing else.
pub fn some_are_all<S: Entrusted>()
    ensures { SomeAreAll S S.Op S.Reply S.Task }
{}

/// Of two lists of questions, one behind the other, each trustee's are those of the first and then those of the second,
/// and so are the replies.
pub fn questions_join<S: Entrusted>()
    ensures { QuestionsJoin S S.Op S.Reply S.Task }
{}
