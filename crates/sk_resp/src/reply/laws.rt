// What follows from the definitions of replies, whatever reads them.
ghost use Rattle.std.specs.Prelude.{◌≡◌, ◌++◌, []};
ghost use Rattle.sk_resp.specs.Laws.{OneReplies, OneUnreadable, ReadOrUnreadable, RepliesReadOn, SomeReplies, UnreadableOn, UnreadableStays};
ghost use Rattle.sk_resp.specs.Laws.{WrittenRepliesAreReadable, WrittenRepliesAreRead};
ghost use Rattle.sk_resp.specs.Spelling.{Bytes};
ghost use Rattle.sk_resp.specs.Reply.{wire};
ghost use Rattle.sk_resp.specs.ReplyStream.{IsReplyText, IsWritable};
ghost use Rattle.sk_resp.specs.declared.reply.Reply.{Reply};

/// No reply's text is a proper prefix of another's.
pub fn no_reply_begins_another()
    ensures { (text more : Bytes) → IsReplyText text → IsReplyText (text ++ more) → more ≡ [] }
{}

/// Each stream of bytes is read as replies in exactly one way, or is unreadable at exactly one byte behind one list of replies.
pub fn replies_have_one_reading()
    ensures some { SomeReplies }
    ensures reads { OneReplies }
    ensures unreadable { OneUnreadable }
    ensures not_both { ReadOrUnreadable }
{}

/// A stream of replies may be read piece by piece.
pub fn replies_come_in_pieces()
    ensures reads { RepliesReadOn }
    ensures unreadable { UnreadableOn }
    ensures stays { UnreadableStays }
{}

/// What `write_reply` writes of a reply within the limits is a reply's text.
pub fn replies_have_texts()
    ensures { (reply : Reply) → IsWritable reply → IsReplyText (wire reply) }
{}

/// Replies that are written are read again, all of them and nothing else, and no byte of them is unreadable.
pub fn written_replies_are_read()
    ensures read { WrittenRepliesAreRead }
    ensures readable { WrittenRepliesAreReadable }
{}
