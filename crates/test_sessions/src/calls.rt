// The calls that a line has all of.
use crate::hand::Hand;
use crate::refused::Refused;
use crate::round::{Round, View, session_at};
use snap_book::{Call, Held, Refusal, Reply};
use snap_record::{Labels, Sequence, Text};
use snap_store::{RoundName, Session};
use std::alloc::{AllocError, Global};
use std::sync::Wait;

// The ids of the ancestors, as the last entry of the tape has them, copied again where memory was refused.
fn chain_of(alloc: Global, session: &Session) -> Result<Sequence<u32>, AllocError> {
    let Some(entry) = session.tape().last() else {
        return Ok(Sequence::new(alloc));
    };
    let chain = match &entry.entry().reply {
        Reply::Prepared { chain, .. } => chain,
        Reply::Viewed { chain, .. } => chain,
        _ => return Ok(Sequence::new(alloc)),
    };
    match chain.clone() {
        Ok(copy) => Ok(copy),
        Err(_) => chain.clone(),
    }
}

impl<'a, N: RoundName, R: Wait> Round<'a, N, R> {
    fn prepare(
        &mut self,
        n: u64,
        namespace: &str,
        key: &str,
        parent: &str,
        labels: &Labels,
    ) -> Result<Reply, Refused> {
        let session = session_at(&mut self.sessions, n)?;
        self.hands.reserve(1)?;
        let mut room = Session::of(0, Vec::new(self.alloc));
        room.reserve(1)?;
        let own_namespace = Text::copy_of(self.alloc, namespace)?;
        let own_key = Text::copy_of(self.alloc, key)?;
        let active = self
            .store
            .prepare(self.rt, session, namespace, key, parent, labels)?;
        let (id, slot) = (active.id(), active.slot());
        self.hands.push(Hand {
            rt: self.rt,
            store: self.store,
            namespace: own_namespace,
            key: own_key,
            id,
            room,
            held: Held::Active(active),
        })?;
        let chain = chain_of(self.alloc, session)?;
        Ok(Reply::Prepared { id, slot, chain })
    }

    fn view(
        &mut self,
        n: u64,
        namespace: &str,
        key: &str,
        parent: &str,
        labels: &Labels,
    ) -> Result<Reply, Refused> {
        let session = session_at(&mut self.sessions, n)?;
        self.views.reserve(1)?;
        let own_namespace = Text::copy_of(self.alloc, namespace)?;
        let own_key = Text::copy_of(self.alloc, key)?;
        let viewed = self
            .store
            .view(self.rt, session, namespace, key, parent, labels)?;
        let id = viewed.id();
        self.views.push(View {
            namespace: own_namespace,
            key: own_key,
            viewed,
        })?;
        let chain = chain_of(self.alloc, session)?;
        Ok(Reply::Viewed { id, chain })
    }

    // The calls on labels, and those that change nothing.
    fn ask(&mut self, n: u64, call: &Call) -> Result<Reply, Refused> {
        let session = session_at(&mut self.sessions, n)?;
        let (store, rt) = (self.store, self.rt);
        match call {
            Call::Stat { namespace, key } => {
                let info = store.stat(rt, session, namespace.as_str(), key.as_str())?;
                Ok(Reply::Info(info))
            }
            Call::Update {
                namespace,
                key,
                labels,
                paths,
            } => {
                let (namespace, key) = (namespace.as_str(), key.as_str());
                let info = store.update(rt, session, namespace, key, labels, paths)?;
                Ok(Reply::Info(info))
            }
            Call::Usage { namespace, key } => {
                let usage = store.usage(rt, session, namespace.as_str(), key.as_str())?;
                Ok(Reply::Usage(usage))
            }
            Call::Mounts { namespace, key } => {
                let mounts = store.mounts(rt, session, namespace.as_str(), key.as_str())?;
                Ok(Reply::Mounts(mounts))
            }
            Call::Walk {
                namespace,
                after,
                most,
                asked,
            } => {
                let (namespace, after) = (namespace.as_str(), after.as_str());
                let infos = store.walk(rt, session, namespace, after, *most, asked)?;
                Ok(Reply::Page(infos))
            }
            // No line has the others as calls.
            _ => Err(Refused::Book(Refusal::BadArgument)),
        }
    }

    // The calls on leases and limits, and those that take snapshots away. A sweep takes no views.
    fn set(&mut self, n: u64, call: &Call) -> Result<Reply, Refused> {
        let session = session_at(&mut self.sessions, n)?;
        let (store, rt) = (self.store, self.rt);
        match call {
            Call::SetLimit { namespace, limit } => {
                store.set_limit(rt, session, namespace.as_str(), *limit)?;
            }
            Call::NamespaceCreate { namespace, limit } => {
                store.namespace_create(rt, session, namespace.as_str(), *limit)?;
            }
            Call::NamespaceRemove { namespace } => {
                store.namespace_remove(rt, session, namespace.as_str())?;
            }
            Call::LeaseCreate {
                namespace,
                lease,
                until,
            } => store.lease_create(rt, session, namespace.as_str(), lease.as_str(), *until)?,
            Call::LeaseAdd {
                namespace,
                lease,
                name,
            } => {
                let (namespace, lease) = (namespace.as_str(), lease.as_str());
                store.lease_add(rt, session, namespace, lease, name.as_str())?;
            }
            Call::LeaseDrop {
                namespace,
                lease,
                name,
            } => {
                let (namespace, lease) = (namespace.as_str(), lease.as_str());
                store.lease_drop(rt, session, namespace, lease, name.as_str())?;
            }
            Call::LeaseRelease { namespace, lease } => {
                store.lease_release(rt, session, namespace.as_str(), lease.as_str())?;
            }
            Call::Remove { namespace, key } => {
                let (namespace, key) = (namespace.as_str(), key.as_str());
                let freed = store.remove(rt, session, namespace, key)?;
                self.views.retain(|view| !view.is(namespace, key));
                return Ok(Reply::Removed(freed));
            }
            Call::Sweep { namespace, moment } => {
                let swept = store.sweep(rt, session, namespace.as_str(), *moment)?;
                return Ok(Reply::Swept {
                    removed: swept.removed,
                    leases: swept.leases,
                    freed: swept.freed,
                });
            }
            // No line has the others as calls.
            _ => return Err(Refused::Book(Refusal::BadArgument)),
        }
        Ok(Reply::Done)
    }

    pub(crate) fn reply(&mut self, n: u64, call: &Call) -> Result<Reply, Refused> {
        match call {
            Call::Prepare {
                namespace,
                key,
                parent,
                labels,
            } => self.prepare(n, namespace.as_str(), key.as_str(), parent.as_str(), labels),
            Call::View {
                namespace,
                key,
                parent,
                labels,
            } => self.view(n, namespace.as_str(), key.as_str(), parent.as_str(), labels),
            Call::Stat { .. }
            | Call::Update { .. }
            | Call::Usage { .. }
            | Call::Mounts { .. }
            | Call::Walk { .. } => self.ask(n, call),
            _ => self.set(n, call),
        }
    }
}
