//! What each operation does, in a sentence.
ghost use Rattle.std.specs.Prelude.{◌≡◌};
ghost use Rattle.tool_help.specs.Sentences.{sentence_of, tool_name};

use afs_words::{Operation, Tool};

/// The word by which a command is called.
pub fn tool_name(tool: Tool) -> &'static str
    ensures { result.now ≡ tool_name tool }
{
    match tool {
        Tool::Vos => "vos",
        Tool::Pts => "pts",
    }
}

/// What an operation does.
pub fn sentence(operation: Operation) -> &'static str
    ensures { result.now ≡ sentence_of operation }
{
    match operation {
        Operation::AddEntry => "make the entry of a volume",
        Operation::ListVldb => "list the entries of volumes",
        Operation::Lock => "lock the entry of a volume",
        Operation::Unlock => "release the lock on the entry of a volume",
        Operation::UnlockVldb => "release the locks on the entries of a server, or on all",
        Operation::DelEntry => "delete the entries of volumes",
        Operation::AddSite => "add a read-only site to the entry of a volume",
        Operation::RemSite => "take a read-only site out of the entry of a volume",
        Operation::ChangeLoc => "set the read-write site in the entry of a volume",
        Operation::ListAddrs => "list the addresses of all file servers",
        Operation::ChangeAddr => "change the address of a file server, or remove it",
        Operation::CreateUser => "make users",
        Operation::CreateGroup => "make groups",
        Operation::Delete => "delete users and groups",
        Operation::Rename => "give a user or group another name",
        Operation::Chown => "give a group another owner",
        Operation::AddUser => "make users members of groups",
        Operation::RemoveUser => "take users out of groups",
        Operation::Membership => "list the members of groups, or the groups of users",
        Operation::Examine => "show the entries of users and groups",
        Operation::ListOwned => "list the groups that users or groups own",
        Operation::ListEntries => "list all users, or all groups",
        Operation::ListMax => "show the highest ids of users and groups",
        Operation::SetMax => "set the highest ids of users and groups",
        Operation::SetFields => "set the access and the group quota of users and groups",
    }
}
