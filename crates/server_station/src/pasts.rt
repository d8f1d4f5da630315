//! What a server was opened as, and what it has put out since: for contracts alone.
ghost use Rattle.std.specs.Prelude.{◌≡◌, ◌++◌, []};

use db_image::DraftService;
use disk_base::Disk;
use ghost_values::{Ghost, Says};
use std::collections::LinkedList;
use ubik_node::{Node, Output, Outputs};

/// The server as it was opened, and all that its steps have put out since. It takes no memory, and nothing can ask for it.
pub(crate) struct Past<D: Disk, V: DraftService> {
    pub(crate) opened: Ghost<Node<D, V>>,
    pub(crate) outputs: Ghost<LinkedList<Output>>,
}

impl<D: Disk, V: DraftService> Drop for Past<D, V> {
    fn drop(self) {
        let Self {
            opened: _,
            outputs: _,
        } = self;
    }
}

/// What is kept of a node that is opened: the node as it then is.
struct AsItIs;

impl<T> Says<T, T> for AsItIs {
    ghost says = { λ x. x };
}

/// What was put out before the first step: nothing.
struct Nothing;

impl Says<(), LinkedList<Output>> for Nothing {
    ghost use Rattle.std.specs.Prelude.{[]};

    ghost says = { λ _. [] };
}

/// What has been put out after a step: what was put out before it, and behind that what it has put out.
struct Behind;

impl<'a> Says<(&'a Ghost<LinkedList<Output>>, &'a Outputs), LinkedList<Output>> for Behind {
    ghost use Rattle.std.specs.Prelude.{◌++◌};

    ghost says = { λ now. now.0.now.value ++ now.1.now };
}

impl<D: Disk, V: DraftService> Past<D, V> {
    /// That of a server that was just opened.
    pub(crate) fn of(node: &Node<D, V>) -> Past<D, V>
        ensures opened { result.opened.value ≡ node.now }
        ensures outputs { result.outputs.value ≡ [] }
    {
        Past {
            opened: Ghost::of::<Node<D, V>, AsItIs>(node),
            outputs: Ghost::of::<(), Nothing>(&()),
        }
    }

    /// A step has put this out.
    pub(crate) fn add(&mut self, out: &Outputs)
        ensures opened { self.new.opened.value ≡ self.old.opened.value }
        ensures outputs { self.new.outputs.value ≡ self.old.outputs.value ++ out.now }
    {
        let Past { outputs, .. } = self;
        *outputs = Ghost::of::<(&Ghost<LinkedList<Output>>, &Outputs), Behind>(&(&*outputs, out));
    }
}
