//! Laws of every object that is sent.

ghost use Rattle.sub_core.specs.Laws.{IdIsRead, FieldsAreRead, SentArrives};

use crate::roles::Subcontract;

/// What an object's bytes say is read again, whatever follows them.
pub fn written_is_read()
    ensures id { IdIsRead }
    ensures fields { FieldsAreRead }
{}

/// An object that is sent and received has the tag and the name that it had, and leads where it led.
pub fn sent_arrives<S: Subcontract>()
    ensures { SentArrives S.form S.route }
{}
