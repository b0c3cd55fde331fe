//! Laws of sessions, as contracts of functions that do nothing.

ghost use Rattle.referee_session.specs.Laws.{EachEndIsLost, EachTalkEnds, OneTextIsDue, PlaysAreTalks};
ghost use Rattle.referee_session.specs.Laws.{SaidIsAtTheFront, SomeTextIsDue, TalksArePlays};
ghost use Rattle.referee_session.specs.Turns.{IsLegal};

use crate::session::Session;

/// A session plays the nodes of a legal pool from a root, and each of its answers was asked for.
pub fn session_is_legal(session: &Session)
    ensures { IsLegal session.now }
{
    session.see_legal();
}

/// A talk is the play against the algorithm that answers its bins, and the play against any algorithm is the talk of
/// the bins that it answers.
pub fn talks_are_plays()
    ensures plays { PlaysAreTalks }
    ensures talks { TalksArePlays }
{}

/// Whatever bins are answered, the play ends, at the latest when as many were answered as there are bins times the
/// capacity. Wherever it ends, a load has reached the target, and the items are packable.
pub fn each_talk_ends()
    ensures ends { EachTalkEnds }
    ensures lost { EachEndIsLost }
{}

/// Of each input one text is due: some list of answers comes, and then a reason to ask for no further one, and only
/// these. What is said to answers that come is at the front of that text.
pub fn one_text_is_due()
    ensures some { SomeTextIsDue }
    ensures one { OneTextIsDue }
    ensures front { SaidIsAtTheFront }
{}
