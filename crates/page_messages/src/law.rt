//! What is written is read as it was meant. Each law is the contract of a function that does nothing.

ghost use Rattle.std.specs.Prelude.{List, None, Some, length, ℕ, ◌<◌, ◌≡◌};
ghost use Rattle.pager_channel.specs.declared.numbers.Ops.{Ops as Numbers};
ghost use Rattle.tower_core.specs.declared.right.Right.{Right as ARight};
ghost use Rattle.layer_laws.specs.Side.{Side};
ghost use Rattle.page_messages.specs.declared.kinds.Asked.{Asked as AQuestion};
ghost use Rattle.page_messages.specs.declared.kinds.Called.{Called as AnOrder};
ghost use Rattle.page_messages.specs.declared.paged.PagedFile.{PagedFile as AFile};
ghost use Rattle.page_messages.specs.Carried.{about_sent, answered, asked_down, asked_up, called_up};
ghost use Rattle.page_messages.specs.Kinds.{answer_in, asked_in, bytes_down, bytes_up, called_in, reply_in, right_of};
ghost use Rattle.page_messages.specs.Letters.{LetterSeen, answer, order, question, reply};
ghost use Rattle.page_messages.specs.Paged.{IsPagedFile, about_of};
ghost use Rattle.page_messages.specs.Rights.{IsForPage, asked_right, called_right};
ghost use Rattle.page_messages.specs.Sealed.{sealed};

/// What is sent about a page of a file is about that page, and the end of a channel about the
/// channel.
pub fn sent_is_about_its_page()
    ensures { (ops : Numbers) (file : AFile) (page : ℕ) (letter : LetterSeen) →
        IsPagedFile file → page < file.pages →
        about_of file (sealed ops file page letter) ≡ Some (about_sent letter.which page) }
{}

/// Each letter is the message that it was written as.
pub fn sent_is_what_was_meant()
    ensures question { (ops : Numbers) (file : AFile) (page : ℕ) (s : Side) (what : AQuestion) →
        asked_in (sealed ops file page (question s what)) ≡ Some what }
    ensures answer { (ops : Numbers) (file : AFile) (page : ℕ) (right : ARight) (bytes : List ℕ)
        (what : AQuestion) →
        answer_in (sealed ops file page (answer right bytes what)) ≡ Some (answered right what) }
    ensures order { (ops : Numbers) (file : AFile) (page : ℕ) (what : AnOrder) →
        called_in (sealed ops file page (order what)) ≡ Some what }
    ensures reply { (ops : Numbers) (file : AFile) (page : ℕ) (s : Side) (what : AnOrder) →
        reply_in (sealed ops file page (reply s what)) ≡ Some what }
{}

/// Each letter has the right that its node has after the message.
pub fn sent_has_its_right()
    ensures question { (ops : Numbers) (file : AFile) (page : ℕ) (s : Side) (what : AQuestion) →
        right_of (sealed ops file page (question s what)).head.access ≡ asked_right what }
    ensures answer { (ops : Numbers) (file : AFile) (page : ℕ) (right : ARight) (bytes : List ℕ)
        (what : AQuestion) →
        right_of (sealed ops file page (answer right bytes what)).head.access ≡ asked_right what }
    ensures order { (ops : Numbers) (file : AFile) (page : ℕ) (what : AnOrder) →
        right_of (sealed ops file page (order what)).head.access ≡ called_right what }
    ensures reply { (ops : Numbers) (file : AFile) (page : ℕ) (s : Side) (what : AnOrder) →
        right_of (sealed ops file page (reply s what)).head.access ≡ called_right what }
{}

/// Each letter brings the bytes that it was to bring. A page of zeros is brought without data.
pub fn sent_brings_its_bytes()
    ensures question { (ops : Numbers) (file : AFile) (page : ℕ) (s : Side) (what : AQuestion) →
        bytes_up (sealed ops file page (question s what)) ≡ asked_up s what }
    ensures answer { (ops : Numbers) (file : AFile) (page : ℕ) (right : ARight) (bytes : List ℕ)
        (what : AQuestion) → (IsForPage what → length bytes ≡ file.page_size) →
        bytes_down file.page_size (sealed ops file page (answer right bytes what)) ≡
        asked_down right bytes what }
    ensures order { (ops : Numbers) (file : AFile) (page : ℕ) (what : AnOrder) →
        bytes_down file.page_size (sealed ops file page (order what)) ≡ None }
    ensures reply { (ops : Numbers) (file : AFile) (page : ℕ) (s : Side) (what : AnOrder) →
        bytes_up (sealed ops file page (reply s what)) ≡ called_up s what }
{}
