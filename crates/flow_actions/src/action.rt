//! Actions and their kinds.
ghost use Rattle.std.specs.Prelude.{◌≡◌};
ghost use Rattle.flow_actions.specs.Kinds.{kind_of, kind_of_edit, is_fate, is_shareable, is_void};

use crate::rss::Rss;
use arrayvec::ArrayVec;
use packet_headers::Edit;
use std::alloc::AllocError;

/// The kinds of action (rte_flow guide: actions).
#[derive(Clone, Copy, PartialEq, Eq, Debug, Default)]
pub enum ActionKind {
    /// An action that does nothing.
    #[default]
    Void,
    /// Delivers the frame to an Rx queue.
    Queue,
    /// Delivers the frame to an Rx queue that a hash of its addresses and ports chooses.
    Rss,
    /// Drops the frame.
    Drop,
    /// Goes on with the rules of another group.
    Jump,
    /// Marks the frame with a number.
    Mark,
    /// Counts the frame and its bytes.
    Count,
    /// An action that rules share, by its id.
    Indirect,
    /// Sets the source address of Ethernet.
    MacSrc,
    /// Sets the destination address of Ethernet.
    MacDst,
    /// Sets the source address of IPv4.
    Ipv4Src,
    /// Sets the destination address of IPv4.
    Ipv4Dst,
    /// Sets the source address of IPv6.
    Ipv6Src,
    /// Sets the destination address of IPv6.
    Ipv6Dst,
    /// Sets the source port of TCP or UDP.
    PortSrc,
    /// Sets the destination port of TCP or UDP.
    PortDst,
    /// Lowers the TTL of IPv4 or the hop limit of IPv6 by 1.
    DecTtl,
    /// Sets the TTL of IPv4 or the hop limit of IPv6.
    SetTtl,
    /// Sets the VLAN id of a tag.
    SetVid,
}

impl ActionKind {
    /// Whether rules can share an action of this kind.
    pub fn is_shareable(self) -> bool
        ensures { result ≡ is_shareable self }
    {
        match self {
            ActionKind::Queue | ActionKind::Rss | ActionKind::Mark | ActionKind::Count => true,
            ActionKind::Void
            | ActionKind::Drop
            | ActionKind::Jump
            | ActionKind::Indirect
            | ActionKind::MacSrc
            | ActionKind::MacDst
            | ActionKind::Ipv4Src
            | ActionKind::Ipv4Dst
            | ActionKind::Ipv6Src
            | ActionKind::Ipv6Dst
            | ActionKind::PortSrc
            | ActionKind::PortDst
            | ActionKind::DecTtl
            | ActionKind::SetTtl
            | ActionKind::SetVid => false,
        }
    }

    /// Whether an action of this kind says where the frame goes.
    pub fn is_fate(self) -> bool
        ensures { result ≡ is_fate self }
    {
        match self {
            ActionKind::Queue | ActionKind::Rss | ActionKind::Drop | ActionKind::Jump => true,
            ActionKind::Void
            | ActionKind::Mark
            | ActionKind::Count
            | ActionKind::Indirect
            | ActionKind::MacSrc
            | ActionKind::MacDst
            | ActionKind::Ipv4Src
            | ActionKind::Ipv4Dst
            | ActionKind::Ipv6Src
            | ActionKind::Ipv6Dst
            | ActionKind::PortSrc
            | ActionKind::PortDst
            | ActionKind::DecTtl
            | ActionKind::SetTtl
            | ActionKind::SetVid => false,
        }
    }
}

/// An action with its value.
#[derive(PartialEq, Eq, Debug, Default, Drop)]
pub enum Action {
    #[default]
    Void,
    /// The Rx queue.
    Queue(u16),
    /// The Rx queues, and what is hashed.
    Rss(Rss),
    Drop,
    /// The group whose rules come next.
    Jump(u32),
    /// The mark.
    Mark(u32),
    /// Counts the frame and its bytes.
    Count,
    /// The id of an action that rules share: the frame meets the value that it has then.
    Indirect(u32),
    /// The edit of a header.
    Set(Edit),
}

impl Action {
    /// Whether the action does nothing.
    pub fn is_void(&self) -> bool
        ensures { result ≡ is_void self.now }
    {
        match self {
            Action::Void => true,
            Action::Queue(_) => false,
            Action::Rss(_) => false,
            Action::Drop => false,
            Action::Jump(_) => false,
            Action::Mark(_) => false,
            Action::Count => false,
            Action::Indirect(_) => false,
            Action::Set(_) => false,
        }
    }

    /// The action's kind.
    pub fn kind(&self) -> ActionKind
        ensures { result ≡ kind_of self.now }
    {
        match self {
            Action::Void => ActionKind::Void,
            Action::Queue(_) => ActionKind::Queue,
            Action::Rss(_) => ActionKind::Rss,
            Action::Drop => ActionKind::Drop,
            Action::Jump(_) => ActionKind::Jump,
            Action::Mark(_) => ActionKind::Mark,
            Action::Count => ActionKind::Count,
            Action::Indirect(_) => ActionKind::Indirect,
            Action::Set(edit) => kind_of_edit(*edit),
        }
    }

    /// The same action.
    pub fn copied(&self) -> Action
        ensures { result ≡ self.now }
    {
        match self {
            Action::Void => Action::Void,
            Action::Queue(queue) => Action::Queue(*queue),
            Action::Rss(rss) => Action::Rss(rss.copied()),
            Action::Drop => Action::Drop,
            Action::Jump(group) => Action::Jump(*group),
            Action::Mark(mark) => Action::Mark(*mark),
            Action::Count => Action::Count,
            Action::Indirect(id) => Action::Indirect(*id),
            Action::Set(edit) => Action::Set(*edit),
        }
    }
}

impl Clone for Action {
    ghost is_clone = { λ action copy. copy ≡ action };

    fn clone(&self) -> Result<Action, AllocError> {
        Ok(self.copied())
    }
}

/// The kind of an edit's action.
fn kind_of_edit(edit: Edit) -> ActionKind
    ensures { result ≡ kind_of_edit edit }
{
    match edit {
        Edit::MacSrc(_) => ActionKind::MacSrc,
        Edit::MacDst(_) => ActionKind::MacDst,
        Edit::Ipv4Src(_) => ActionKind::Ipv4Src,
        Edit::Ipv4Dst(_) => ActionKind::Ipv4Dst,
        Edit::Ipv6Src(_) => ActionKind::Ipv6Src,
        Edit::Ipv6Dst(_) => ActionKind::Ipv6Dst,
        Edit::PortSrc(_) => ActionKind::PortSrc,
        Edit::PortDst(_) => ActionKind::PortDst,
        Edit::DecTtl => ActionKind::DecTtl,
        Edit::SetTtl(_) => ActionKind::SetTtl,
        Edit::SetVid(_) => ActionKind::SetVid,
    }
}

/// The most actions of a list.
pub const MAX_ACTIONS: usize = 16;

/// The actions of a rule, in order.
#[derive(Debug, Drop)]
pub struct Actions {
    pub list: ArrayVec<Action, MAX_ACTIONS>,
    /// How many actions stood behind the first 16, up to 65,535.
    pub more: u16,
}

impl Clone for Actions {
    ghost is_clone = { λ actions copy. copy ≡ actions };

    fn clone(&self) -> Result<Actions, AllocError> {
        let list = self.list.clone()?;
        let more = self.more;
        Ok(Actions { list, more })
    }
}
